//! How a value comes across (CiA 301, 7.2.4.3.3 and 7.2.4.3.6: the bits e, s and n of an initiate and its field d).
use crate::frame_data::ExpeditedData;

mod methods;

/// The value at once in the start of its transfer, or in segments to come.
#[derive(Clone, Copy, PartialEq, Eq, Debug)]
pub enum Transfer {
    Expedited { data: ExpeditedData },
    Segmented { size: Option<u32> },
}
