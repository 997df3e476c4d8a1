//! What the C libraries build on: codes, answers and requests as C writes them (`c/nvmesgl.h` declares the same), and
//! memory that C lends.

/// The value of a result; where it is a code, the function returns that.
macro_rules! or_code {
    ($result:expr) => {
        match $result {
            Ok(value) => value,
            Err(code) => return code,
        }
    };
}

mod admin;
mod answer;
mod asked;
mod buffers;
pub mod code;
mod gathering;
mod image;
mod lent;
mod lent_regions;
mod not_opened;
mod owner;
mod piece;
mod recorded;
mod region;
mod request;
mod reserved;

pub use admin::{CAdmin, admin_of};
pub use answer::{Answer, collected, ended, nothing, reaped, refused, touching, walked};
pub use asked::{CRequest, asked_of, plain};
pub use buffers::{CBuffer, CBytes, copy_of, count_of, lay, lay_in, room_of};
pub use gathering::gather_into;
pub use image::image_for;
pub use lent::{Lent, LentMemory, MOST_BYTES};
pub use lent_regions::LentRegions;
pub use not_opened::{NotOpened, code_of_not_opened, fault_of_form, told_not_opened};
pub(crate) use or_code;
pub use owner::{COwner, owner_of};
pub use piece::{CPiece, kind_of};
pub use recorded::Recorded;
pub use region::{CRegion, pages_in};
pub use request::{MOST_MOVED, request_for};
