//! An admin command of the caller's own, on a host alone whose device is played by hand: an Identify from its request to its bytes.

use crate::expecting::same;
use entry_codec::{Status, admin_opcode};
use host_bench::{
    AdminCommand, BlockSize, Call, Config, Flags, HostBench, Kind, PageUse, Piece, Pieces, Reaped,
    Reply, Request,
};
use std::alloc::Global;
use std::process::Abort;

/// Queue 0 has the pages 0 and 1, and queue 1 the pages 2 and 3.
const CONFIG: Config = Config {
    pages: 16,
    queues: 1,
    entries: 4,
    segment: 2,
};

/// An Identify of the controller, whose data comes to a page.
fn identify(rt: &impl Abort, alloc: Global) -> Request {
    let whole = Piece::Data {
        offset: 0,
        len: 4096,
    };
    let command = AdminCommand {
        opcode: admin_opcode::IDENTIFY,
        page: PageUse::In,
        cdw10: 1,
        cdw11: 0,
        cdw12: 0,
        cdw13: 0,
        cdw14: 0,
        cdw15: 0,
    };
    Request {
        kind: Kind::Admin(command),
        nsid: 0,
        flags: Flags::NONE,
        slba: 0,
        block_size: BlockSize::Bytes512,
        blocks: 0,
        pieces: Pieces::from_slice(alloc, &[whole]).expect(rt, "a piece"),
    }
}

/// The entry that the device finds in the first slot (NVM Express Base Specification 2.0, "Submission Queue Entry", and "Identify command").
const ENTRY: [u8; 64] = [
    0x06, 0x00, 0x00, 0x00, // the opcode of Identify; its data by a PRP; identifier 0
    0, 0, 0, 0, // no namespace
    0, 0, 0, 0, 0, 0, 0, 0, // reserved
    0, 0, 0, 0, 0, 0, 0, 0, // no metadata
    0x00, 0x40, 0, 0, 0, 0, 0, 0, // PRP entry 1: page 4
    0, 0, 0, 0, 0, 0, 0, 0, // PRP entry 2
    1, 0, 0, 0, // the controller's data structure
    0, 0, 0, 0, 0, 0, 0, 0, 0, 0, 0, 0, 0, 0, 0, 0, 0, 0, 0, 0,
];

/// Its completion, with a double word of 7.
const COMPLETION: [u8; 16] = [7, 0, 0, 0, 0, 0, 0, 0, 1, 0, 0, 0, 0, 0, 1, 0];

/// Makes a call, and sees that it is done.
fn done(rt: &impl Abort, host: &mut HostBench, call: Call) {
    match host.call(call) {
        Reply::Accepted | Reply::Reserved { .. } | Reply::Rung(_) => {}
        Reply::Collected { status, .. } => same(rt, status, Status::SUCCESS),
        Reply::Reaps { found, .. } => {
            let ended = Reaped::AdminDone {
                cid: 0,
                status: Status::SUCCESS,
                dw0: 7,
            };
            same(rt, found, ended);
        }
        _ => panic!(rt; "it is not done"),
    }
}

/// Carries an Identify through: the device finds its entry, and writes its data and its completion.
fn carry(rt: &impl Abort, host: &mut HostBench, request: Request) {
    let (q, cid) = (0, 0);
    done(rt, host, Call::Reserve { q, request });
    done(rt, host, Call::Build { q, cid });
    done(rt, host, Call::Submit { q, cid });
    done(rt, host, Call::Ring { q });
    let mut entry = [0; 64];
    same(rt, host.read(0, &mut entry), Ok(()));
    same(rt, entry, ENTRY);
    same(rt, host.write(0x4000, &[0x22; 4096]), Ok(()));
    same(rt, host.write(0x1000, &COMPLETION), Ok(()));
    done(rt, host, Call::Reap { q });
    done(rt, host, Call::Collect { q, cid });
    match host.call(Call::Gather { q, cid }) {
        Reply::Gathered(bytes) => same(rt, bytes.as_slice(), [0x22; 4096].as_slice()),
        _ => panic!(rt; "nothing is gathered"),
    }
    done(rt, host, Call::Release { q, cid });
}

#[test]
fn an_identify(rt: HostRuntime) {
    let Ok(mut host) = HostBench::open(rt.alloc(), CONFIG) else {
        panic!(&rt; "it opens");
    };
    let request = identify(&rt, rt.alloc());
    carry(&rt, &mut host, request);
    drop(host);
}
