//! What a node does with a frame (CiA 301, 7.2.4.3: the server's side of all SDO protocols).
ghost use Rattle.std.specs.Option.{option_map};
ghost use Rattle.sdo.specs.Requests.{shown_request};
ghost use Rattle.node.specs.Nodes.{Turns, Does, Serves, shown};
ghost use Rattle.node.specs.Steps.{aborted as aborted-step, asked as asked-step, understood as understood-step, interpreted, taken as taken-step};

use super::Node;
use crate::activity::Activity;
use crate::block_start::BlockStart;
use crate::download_start::DownloadStart;
use crate::reaction::Reaction;
use crate::served::Served;
use dictionary::Writable;
use sdo::{BlockRequest, Request};
use wire::{Frame, Identifier};

impl Node {
    /// Serves a frame that was taken from the line, or none where none waited, over the node's dictionary.
    #[inline(always)]
    #[tactic(auto, using(crate::proofs::Turning::serving), unfolding(crate::specs::Steps::step))]
    pub fn serve<D: Writable>(&mut self, dictionary: &mut D, taken: Option<Frame>) -> Reaction
        ensures { Serves D.Readable.meaning taken self.old self.new dictionary.old dictionary.new result }
    {
        match taken {
            Some(frame) => self.take(dictionary, frame),
            None => Reaction {
                served: Served::NothingWaited,
                reply: None,
            },
        }
    }

    /// Takes a frame: one with another identifier than the node's is dropped.
    fn take<D: Writable>(&mut self, dictionary: &mut D, frame: Frame) -> Reaction
        ensures { Does D.Readable.meaning (λ d. taken-step d (shown self.old) frame) self.old self.new dictionary.old dictionary.new result }
    {
        if frame.identifier != Identifier::of_requests(self.number) {
            return self.ignore();
        }
        self.interpret(dictionary, frame.bytes)
    }

    /// Reads a frame's bytes: one way while block segments come in, another elsewhere.
    fn interpret<D: Writable>(&mut self, dictionary: &mut D, bytes: [u8; 8]) -> Reaction
        ensures { Does D.Readable.meaning (λ d. interpreted d self.old.block_size.number (shown self.old).activity bytes) self.old self.new dictionary.old dictionary.new result }
    {
        if let Activity::BlockDownload { reception } = self.activity {
            return self.asked_in_block(reception, BlockRequest::from_bytes(bytes));
        }
        self.understood(dictionary, Request::from_bytes(bytes))
    }

    /// A request in any state but while block segments come in, or none that is known.
    fn understood<D: Writable>(&mut self, dictionary: &mut D, request: Option<Request>) -> Reaction
        ensures { Does D.Readable.meaning (λ d. understood-step d self.old.block_size.number (shown self.old).activity (option_map shown_request request)) self.old self.new dictionary.old dictionary.new result }
    {
        match request {
            Some(request) => self.asked(dictionary, request),
            None => self.unexpected(),
        }
    }

    /// A request in any state but while block segments come in: a start replaces a transfer.
    fn asked<D: Writable>(&mut self, dictionary: &mut D, request: Request) -> Reaction
        ensures { Does D.Readable.meaning (λ d. asked-step d self.old.block_size.number (shown self.old).activity (shown_request request)) self.old self.new dictionary.old dictionary.new result }
    {
        match request {
            Request::InitiateDownload {
                multiplexor,
                transfer,
            } => self.start_download(dictionary, multiplexor, transfer),
            Request::DownloadSegment(segment) => self.download_segment(dictionary, segment),
            Request::InitiateUpload { multiplexor } => self.start_upload(dictionary, multiplexor),
            Request::UploadSegment { toggle } => self.upload_segment(toggle),
            Request::InitiateBlockDownload {
                multiplexor,
                crc,
                size,
            } => self.start_block(
                dictionary,
                BlockStart {
                    download: DownloadStart { multiplexor, size },
                    crc,
                },
            ),
            Request::EndBlockDownload { unused, crc } => self.block_end(dictionary, unused, crc),
            Request::Abort { .. } => self.aborted(),
        }
    }

    /// An abort ends a transfer; without one it is dropped.
    fn aborted(&mut self) -> Reaction
        ensures { Turns (aborted-step (shown self.old).activity) self.old self.new result }
    {
        if self.is_idle() {
            self.ignore()
        } else {
            self.end()
        }
    }
}
