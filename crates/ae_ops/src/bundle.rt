// The nets of a value.

ghost use Rattle.std.specs.Prelude.{◌≡◌, ◌<◌, ◌∷◌, [], IfOk};

use ae_netlist::NetId;
use std::alloc::{AllocError, Global};
use std::marker::Model;

/// The nets of a value, by lane and then by word.
#[derive(Drop)]
pub struct Bundle {
    nets: Vec<NetId>,
}

impl Model for Bundle {
    ghost use Rattle.std.specs.Prelude.{List};
    ghost use Rattle.ae_netlist.specs.declared.cell.NetId.{NetId};

    ghost Value = { List NetId };

    ghost view = { λ b. b.nets.items };
}

impl Bundle {
    /// The bundle of these nets.
    pub fn new(nets: Vec<NetId>) -> Bundle
        ensures { result ≡ nets.items }
    {
        Bundle { nets }
    }

    /// A bundle of one net.
    pub fn one(alloc: Global, net: NetId) -> Result<Bundle, AllocError>
        ensures ok { IfOk result (λ b. b ≡ net ∷ []) }
    {
        let mut nets = Vec::new(alloc);
        nets.push(net)?;
        Ok(Bundle { nets })
    }

    /// Its nets, by column.
    pub fn nets(&self) -> &[NetId]
        ensures { result.now ≡ self.now }
    {
        self.nets.as_slice()
    }
}
