// Nets that may be missing.

ghost use Rattle.std.specs.Prelude.{◌≡◌, ◌<◌, None, Some, length};

use ae_judge::MaybePlace;
use ae_netlist::{NetId, Netlist};
use std::marker::Model;

/// A net, or none, in four bytes: half of what an `Option<NetId>` takes.
#[derive(Clone, Copy)]
pub struct MaybeNet {
    number: MaybePlace,
}

impl Model for MaybeNet {
    ghost use Rattle.std.specs.Prelude.{Option};
    ghost use Rattle.ae_netlist.specs.declared.cell.NetId.{NetId};
    ghost use Rattle.ae_express.specs.MaybeNets.{net_number, net_number_again, numbered_net};

    ghost Value = { Option NetId };

    ghost view = { λ n. numbered_net n.number };

    ghost inverse = { λ o. record { number = net_number o } };

    ghost inverse_ok = { λ a h i. record { number = net_number_again a.number i } };
}

impl MaybeNet {
    pub fn none() -> MaybeNet
        ensures { result ≡ None }
    {
        MaybeNet {
            number: MaybePlace::none(),
        }
    }

    /// A net of a netlist.
    pub fn of(nl: &Netlist, net: NetId) -> MaybeNet
        requires there { net.0 < length nl.now.cells }
        ensures { result ≡ Some net }
    {
        nl.formed();
        MaybeNet {
            number: MaybePlace::some(net.0),
        }
    }

    pub fn net(self) -> Option<NetId>
        ensures { result ≡ self }
    {
        match self.number.place() {
            Some(number) => Some(NetId(number)),
            None => None,
        }
    }
}
