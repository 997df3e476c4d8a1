//! Neighbouring parts that become one.

ghost use Rattle.std.specs.Prelude.{◌≡◌, Some, None, if◌then◌else◌};
ghost use Rattle.sgl_chain.specs.Joining.{joins, both};

use sgl_descriptor::Part;

/// The one part that two neighbours become: data from where the first begins, as long as both together. `None` where they
/// do not join: two data parts join where the first ends at the address where the second begins and their lengths together
/// fit 32 bits; a bucket joins nothing.
pub fn join(first: Part, second: Part) -> Option<Part>
    ensures { result ≡ (if joins first second then Some (both first second) else None) }
{
    match (first, second) {
        (
            Part::Data { addr, len },
            Part::Data {
                addr: next,
                len: more,
            },
        ) => {
            if u128::from(addr) + u128::from(len) != u128::from(next) {
                return None;
            }
            let len = len.checked_add(more)?;
            Some(Part::Data { addr, len })
        }
        (_, Part::Bucket { .. }) | (Part::Bucket { .. }, _) => None,
    }
}
