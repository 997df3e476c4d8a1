//! Why a handle was not opened.

ghost use Rattle.std.specs.Prelude.{◌≡◌};
ghost use Rattle.nvmesgl_c.specs.NotOpening as not_opening;

use crate::words::answer::{Answer, not_opened, nothing};
use crate::words::code::{BAD_IMAGE, BAD_OPTION, BAD_SIZE, MEMORY, code_of_open_refusal};
use crate::words::reserved::has_set_word;
use machine_model::words::OpenRefusal;

/// Why a handle was not opened: the first of these that holds.
#[derive(Clone, Copy, Debug, PartialEq, Eq)]
pub enum NotOpened {
    /// The options have another size.
    BadSize,
    /// A reserved word is not 0.
    BadOption,
    /// The image is not 1 to 65,536 whole blocks.
    BadImage,
    /// Memory was refused.
    Memory,
    /// Nothing opens with these numbers.
    Refused(OpenRefusal),
}

/// What is wrong with the form of options, if anything is: their size is not that of their kind, or a reserved word is not 0.
pub fn fault_of_form(size: u32, own: u32, reserved: &[u32]) -> Option<NotOpened>
    ensures { result ≡ not_opening.fault_of_form own size reserved.now }
{
    if size != own {
        return Some(NotOpened::BadSize);
    }
    if has_set_word(reserved) {
        return Some(NotOpened::BadOption);
    }
    None
}

/// The code of an opening that was not done.
pub fn code_of_not_opened(why: NotOpened) -> u32
    ensures { result ≡ not_opening.code_of_not_opened why }
{
    match why {
        NotOpened::BadSize => BAD_SIZE,
        NotOpened::BadOption => BAD_OPTION,
        NotOpened::BadImage => BAD_IMAGE,
        NotOpened::Memory => MEMORY,
        NotOpened::Refused(why) => code_of_open_refusal(why),
    }
}

/// What an opening that was not done tells.
pub fn told_not_opened(why: NotOpened) -> Answer
    ensures { result ≡ not_opening.told_not_opened why }
{
    match why {
        NotOpened::Refused(why) => not_opened(why),
        NotOpened::BadSize | NotOpened::BadOption | NotOpened::BadImage | NotOpened::Memory =>
            nothing(),
    }
}
