//! The bytes that a segment carries (CiA 301, 7.2.4.3.4 and 7.2.4.3.7: the field seg-data of a download or upload segment).
use crate::frame_data::FrameData;

/// Up to seven bytes of a value.
pub type SegmentData = FrameData<0, 7>;
