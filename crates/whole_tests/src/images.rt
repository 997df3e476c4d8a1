//! Images that are whole, that are no whole blocks, and that cannot be read to their end.

use crate::door::{After, Source};
use crate::expecting::same_at;
use script_cli::{ImageFault, read_image};

#[test]
fn images_are_read(rt: HostRuntime) {
    let bytes = [17; 1024];
    for (len, after, fault) in [
        (1024, After::End, None),
        (1023, After::End, Some(ImageFault::BadLength)),
        (513, After::End, Some(ImageFault::BadLength)),
        (0, After::End, Some(ImageFault::BadLength)),
        (1024, After::Failure, Some(ImageFault::Unreadable)),
        (700, After::Failure, Some(ImageFault::Unreadable)),
    ] {
        let mut reader = Source {
            rest: &bytes[..len],
            after,
            asked: 0,
        };
        let found = read_image(rt.alloc(), &mut reader).err();
        same_at(
            &rt,
            len,
            (found, reader.asked),
            (fault, len.saturating_add(1)),
        );
    }
}
