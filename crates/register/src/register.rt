//! The register of abort codes: the layer that each belongs to.
ghost use Rattle.std.specs.Prelude.{◌≡◌};
ghost use Rattle.wire.specs.AbortCodes.{number};
ghost use Rattle.register.specs.Layers.{layer_of};

use crate::layer::Layer;
use search::{Keyed, place};
use wire::AbortCode;

/// A code's number, and the layer that the code belongs to.
#[derive(Drop)]
struct Registered(u32, Layer);

impl Keyed for Registered {
    type Key = u32;

    ghost label = { λ r. r.0 };

    fn key(&self) -> u32 {
        self.0
    }
}

/// The rows of the register, rising by number.
const REGISTER: [Registered; 15] = [
    Registered(0x0503_0000, Layer::Protocol),
    Registered(0x0504_0000, Layer::Protocol),
    Registered(0x0504_0001, Layer::Protocol),
    Registered(0x0504_0002, Layer::Protocol),
    Registered(0x0504_0003, Layer::Protocol),
    Registered(0x0504_0004, Layer::Protocol),
    Registered(0x0504_0005, Layer::Protocol),
    Registered(0x0601_0001, Layer::Dictionary),
    Registered(0x0601_0002, Layer::Dictionary),
    Registered(0x0602_0000, Layer::Dictionary),
    Registered(0x0607_0010, Layer::Protocol),
    Registered(0x0607_0012, Layer::Dictionary),
    Registered(0x0607_0013, Layer::Dictionary),
    Registered(0x0609_0011, Layer::Dictionary),
    Registered(0x0609_0030, Layer::Dictionary),
];

/// The layer that a code belongs to where it came over the line.
pub fn layer_of(code: AbortCode) -> Layer
    ensures { result ≡ layer_of (number code) }
{
    match place(&REGISTER, u32::from(code)) {
        Some(i) => REGISTER[i].1,
        None => Layer::Protocol,
    }
}
