//! What a master does with each of the node's answers, by the answer that it awaits.
ghost use Rattle.sdo.specs.Answers.{shown_answer};
ghost use Rattle.sdo.specs.FrameData.{value_in};
ghost use Rattle.sdo.specs.Transfers.{shown_transfer};
ghost use Rattle.master.specs.Steps.{hear_initiate_download, hear_download_segment, hear_initiate_upload, hear_upload_segment, hear_initiate_block, hear_acknowledgement, hear_end, answered};
ghost use Rattle.master.specs.Shown.{Follows};

use super::Master;
use crate::phase::Awaiting;
use crate::plan::Step;
use sdo::{Answer, CrcOffer, Segment, Toggle, Transfer};
use wire::{AbortCode, Multiplexor};

impl Master {
    /// Any answer.
    pub(crate) fn answer(&mut self, awaiting: Awaiting, answer: Answer) -> Step
        ensures { Follows (answered self.old awaiting (shown_answer answer)) self.new result }
    {
        match answer {
            Answer::InitiateDownload { multiplexor } => {
                self.hear_initiate_download(awaiting, multiplexor)
            }
            Answer::DownloadSegment { toggle } => self.hear_download_segment(awaiting, toggle),
            Answer::InitiateUpload {
                multiplexor,
                transfer,
            } => self.hear_initiate_upload(awaiting, multiplexor, transfer),
            Answer::UploadSegment(segment) => self.hear_upload_segment(awaiting, segment),
            Answer::InitiateBlockDownload {
                multiplexor,
                crc,
                block_size,
            } => self.hear_initiate_block(awaiting, multiplexor, crc, block_size),
            Answer::AcknowledgeBlock {
                last_kept,
                block_size,
            } => self.hear_acknowledgement(awaiting, last_kept, block_size),
            Answer::EndBlockDownload => self.hear_end(awaiting),
            Answer::Abort { code, .. } => self.end_by_node(code),
        }
    }

    /// The answer to the start of a write.
    fn hear_initiate_download(&mut self, awaiting: Awaiting, multiplexor: Multiplexor) -> Step
        ensures { Follows (hear_initiate_download self.old awaiting multiplexor) self.new result }
    {
        match awaiting {
            Awaiting::ExpeditedDownload if multiplexor == self.multiplexor => self.succeed(),
            Awaiting::InitiateDownload if multiplexor == self.multiplexor => {
                self.send_segment(Toggle::Zero, 1)
            }
            _ => self.find(awaiting, AbortCode::UnknownCommand),
        }
    }

    /// The answer to a segment of a write.
    fn hear_download_segment(&mut self, awaiting: Awaiting, toggle: Toggle) -> Step
        ensures { Follows (hear_download_segment self.old awaiting toggle) self.new result }
    {
        match awaiting {
            Awaiting::DownloadSegment {
                toggle: sent,
                number,
            } if toggle == sent => self.take_segment(toggle, number),
            Awaiting::DownloadSegment { .. } => self.find(awaiting, AbortCode::ToggleNotAlternated),
            _ => self.find(awaiting, AbortCode::UnknownCommand),
        }
    }

    /// The answer to the start of a read.
    fn hear_initiate_upload(
        &mut self,
        awaiting: Awaiting,
        multiplexor: Multiplexor,
        transfer: Transfer,
    ) -> Step
        ensures { Follows (hear_initiate_upload self.old awaiting multiplexor (shown_transfer transfer)) self.new result }
    {
        match awaiting {
            Awaiting::InitiateUpload if multiplexor == self.multiplexor => {
                self.start_reading(awaiting, transfer)
            }
            _ => self.find(awaiting, AbortCode::UnknownCommand),
        }
    }

    /// A segment of a read.
    fn hear_upload_segment(&mut self, awaiting: Awaiting, segment: Segment) -> Step
        ensures { Follows (hear_upload_segment self.old awaiting segment.toggle (value_in segment.bytes) segment.last) self.new result }
    {
        match awaiting {
            Awaiting::UploadSegment {
                toggle: asked,
                size,
            } if segment.toggle == asked => self.read_on(size, segment),
            Awaiting::UploadSegment { .. } => self.find(awaiting, AbortCode::ToggleNotAlternated),
            _ => self.find(awaiting, AbortCode::UnknownCommand),
        }
    }

    /// The answer to the start of a block write.
    fn hear_initiate_block(
        &mut self,
        awaiting: Awaiting,
        multiplexor: Multiplexor,
        crc: CrcOffer,
        block_size: u8,
    ) -> Step
        ensures { Follows (hear_initiate_block self.old awaiting multiplexor crc block_size) self.new result }
    {
        match awaiting {
            Awaiting::InitiateBlockDownload if multiplexor == self.multiplexor => {
                self.start_blocks(awaiting, crc, block_size)
            }
            _ => self.find(awaiting, AbortCode::UnknownCommand),
        }
    }

    /// The acknowledgement of a sub-block.
    fn hear_acknowledgement(&mut self, awaiting: Awaiting, last_kept: u8, block_size: u8) -> Step
        ensures { Follows (hear_acknowledgement self.old awaiting last_kept block_size) self.new result }
    {
        match awaiting {
            Awaiting::BlockDownload(sub_block) => {
                self.acknowledge(sub_block, last_kept, block_size)
            }
            _ => self.find(awaiting, AbortCode::UnknownCommand),
        }
    }

    /// The answer to the end of a block write.
    fn hear_end(&mut self, awaiting: Awaiting) -> Step
        ensures { Follows (hear_end self.old awaiting) self.new result }
    {
        match awaiting {
            Awaiting::EndBlockDownload => self.succeed(),
            _ => self.find(awaiting, AbortCode::UnknownCommand),
        }
    }
}
