//! Which layer of the stack a failed transfer failed in.
ghost use Rattle.std.specs.Prelude.{◌≡◌};
ghost use Rattle.register.specs.Layers.{layer_number, LayersTold};

/// Where a transfer failed: found by the master itself, told by the protocol, or told by the node's dictionary.
#[derive(Clone, Copy, PartialEq, Eq, Debug)]
pub enum Layer {
    Master = 1,
    Protocol = 2,
    Dictionary = 3,
}

/// The layer's number.
impl From<Layer> for u8 {
    ghost from_gives = { λ layer result. result ≡ layer_number layer };

    fn from(layer: Layer) -> u8 {
        layer as u8
    }
}

/// States that the codes of a dictionary's verdict belong to the dictionary, and all others to the protocol.
pub fn layers_told_apart()
    ensures { LayersTold }
{}
