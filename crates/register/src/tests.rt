//! The layers of abort codes, by their numbers.
use crate::layer::Layer;
use crate::register::layer_of;
use wire::AbortCode;

#[test]
fn a_verdict_is_the_dictionarys(rt: HostRuntime) {
    assert!(rt; layer_of(AbortCode::WriteOnly) == Layer::Dictionary);
    assert!(rt; layer_of(AbortCode::InvalidValue) == Layer::Dictionary);
    assert!(rt; layer_of(AbortCode::from(0x0602_0000)) == Layer::Dictionary);
    assert_eq!(rt; u8::from(Layer::Dictionary), 3);
}

#[test]
fn all_else_is_the_protocols(rt: HostRuntime) {
    assert!(rt; layer_of(AbortCode::ToggleNotAlternated) == Layer::Protocol);
    assert!(rt; layer_of(AbortCode::LengthMismatch) == Layer::Protocol);
    assert!(rt; layer_of(AbortCode::GeneralError) == Layer::Protocol);
    assert!(rt; layer_of(AbortCode::from(0x0607_0011)) == Layer::Protocol);
    assert_eq!(rt; u8::from(Layer::Protocol), 2);
}
