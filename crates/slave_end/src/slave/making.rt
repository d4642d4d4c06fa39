// Making a slave, and ending it.
ghost use Rattle.std.specs.Prelude.{◌≡◌};
ghost use Rattle.slave_end.specs.Calls.{new_slave};

use super::{Dismissed, Slave};
use inlet::Inlet;
use length::DataLength;
use profile::Profile;
use shared_end::endpoint::Endpoint;
use sink::Sink;

impl<S: Sink, P: Profile> Slave<S, P> {
    // A slave at that address. Its sink is cleared.
    pub fn new(size: DataLength, address: u16, sink: S, profile: P) -> Slave<S, P>
        ensures { result ≡ new_slave S.Sink size address sink profile }
    {
        Slave {
            endpoint: Endpoint::new(size, 0, sink),
            inlet: Inlet {
                address,
                id: 0,
                block: [0; 64],
                stored: 0,
            },
            profile,
        }
    }

    // Ends the slave, and gives its sink back, cleared, and its profile.
    pub fn dismiss(self) -> Dismissed<S, P>
        ensures sink { result.sink ≡ S.Sink.cleared self.endpoint.sink }
        ensures profile { result.profile ≡ self.profile }
    {
        let Slave {
            endpoint,
            inlet: _,
            profile,
        } = self;
        Dismissed {
            sink: endpoint.into_sink(),
            profile,
        }
    }
}
