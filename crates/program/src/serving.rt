//! Who serves, by what is asked for.

use command_line::Serving;
use job_cli::Server;

/// Who serves where this one is asked to.
pub(crate) fn server_of(serving: Serving) -> Server {
    match serving {
        Serving::Ringer => Server::Ringer,
        Serving::Controller => Server::Controller,
    }
}
