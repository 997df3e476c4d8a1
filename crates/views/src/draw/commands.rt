//! The outstanding commands: what they were asked for, and the pages that they own.

use crate::draw::cells::hue_of;
use crate::draw::escaped::put_escaped;
use page_ledger::{Owner, Role};
use std::alloc::{AllocError, Global};

/// What a command was asked for.
#[derive(Drop)]
pub(crate) struct Asked {
    q: u16,
    cid: u16,
    /// The line that reserved it: its kind, its blocks and the pieces of its list.
    line: String,
}

/// What the commands that were reserved were asked for. An identifier that is reserved again has the later line.
#[derive(Drop)]
pub(crate) struct Requests {
    all: Vec<Asked>,
}

impl Requests {
    /// None.
    pub(crate) fn new(alloc: Global) -> Requests {
        Requests {
            all: Vec::new(alloc),
        }
    }

    /// Notes the line that reserved a command.
    pub(crate) fn note(
        &mut self,
        alloc: Global,
        q: u16,
        cid: u16,
        line: &str,
    ) -> Result<(), AllocError> {
        let line = String::from_str(alloc, line)?;
        for asked in &mut self.all {
            if asked.q == q && asked.cid == cid {
                asked.line = line;
                return Ok(());
            }
        }
        Ok(self.all.push(Asked { q, cid, line })?)
    }

    /// The line that reserved a command; empty for one that no line reserved, as one of queue 0.
    fn line_of(&self, q: u16, cid: u16) -> &str {
        for asked in &self.all {
            if asked.q == q && asked.cid == cid {
                return asked.line.as_str();
            }
        }
        ""
    }
}

/// A command that owns pages.
#[derive(Drop)]
struct Command {
    q: u16,
    cid: u16,
    /// The numbers of the pages where its list lies, and of those of its data.
    list: String,
    data: String,
}

/// Puts the number of a page after others.
fn put_page(numbers: &mut String, page: usize) -> Result<(), AllocError> {
    if !numbers.is_empty() {
        numbers.push_str(" ")?;
    }
    write!(numbers, "{page}")
}

/// Notes that a command owns a page.
fn note(
    alloc: Global,
    commands: &mut Vec<Command>,
    (q, cid): (u16, u16),
    role: Role,
    page: usize,
) -> Result<(), AllocError> {
    let place = commands
        .iter()
        .position(|command| command.q == q && command.cid == cid);
    let place = match place {
        Some(place) => place,
        None => {
            commands.push(Command {
                q,
                cid,
                list: String::new(alloc),
                data: String::new(alloc),
            })?;
            commands.len() - 1
        }
    };
    match (commands.get_mut(place), role) {
        (Some(command), Role::Chain) => put_page(&mut command.list, page),
        (Some(command), Role::Data) => put_page(&mut command.data, page),
        (None, _) => Ok(()),
    }
}

/// Puts a table of the commands that own pages.
pub(crate) fn put_commands(
    alloc: Global,
    out: &mut String,
    requests: &Requests,
    owners: &[Owner],
) -> Result<(), AllocError> {
    let mut commands = Vec::new(alloc);
    for (page, owner) in owners.iter().enumerate() {
        if let Owner::Command { q, cid, role } = *owner {
            note(alloc, &mut commands, (q, cid), role, page)?;
        }
    }
    if commands.is_empty() {
        return Ok(());
    }
    out.push_str(
        "<table><tr><th>queue, identifier</th><th>reserved by</th><th>list in pages</th><th>data in pages</th></tr>",
    )?;
    for command in &commands {
        let Command { q, cid, list, data } = command;
        let hue = hue_of(*q, *cid);
        write!(
            out,
            "<tr><td><i style=\"--h:{hue}\"></i>{q}, {cid}</td><td>"
        )?;
        put_escaped(out, requests.line_of(*q, *cid))?;
        write!(out, "</td><td>{list}</td><td>{data}</td></tr>")?;
    }
    out.push_str("</table>\n")
}
