//! A submitted command, as its sender holds it.

ghost use Rattle.std.specs.Prelude.{◌≡◌};

use std::marker::Model;

/// The right to collect a submitted command. It must be spent: it is no `Drop`.
#[derive(Debug, PartialEq, Eq)]
pub struct Ticket {
    q: u16,
    cid: u16,
}

impl Model for Ticket {
    ghost use Rattle.io_commands.specs.Values.{TicketContents};

    ghost Value = { TicketContents };

    ghost view = { λ t. record { q = t.q; cid = t.cid } };

    ghost inverse = { λ t. record { q = t.q; cid = t.cid } };
}

impl Ticket {
    /// A ticket of a command of queue `q`.
    pub fn make(q: u16, cid: u16) -> Self
        ensures { result ≡ record { q = q; cid = cid } }
    {
        Ticket { q, cid }
    }

    /// The command's queue.
    pub fn q(&self) -> u16
        ensures { result ≡ self.now.q }
    {
        self.q
    }

    /// The command's identifier.
    pub fn cid(&self) -> u16
        ensures { result ≡ self.now.cid }
    {
        self.cid
    }

    /// The queue and the identifier that it was made of.
    pub fn apart(self) -> (u16, u16)
        ensures queue { result.0 ≡ self.q }
        ensures identifier { result.1 ≡ self.cid }
    {
        let Ticket { q, cid } = self;
        (q, cid)
    }
}
