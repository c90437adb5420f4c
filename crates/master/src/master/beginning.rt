//! How a transfer begins: with the start of its protocol (CiA 301, 7.2.4.3), or with a refusal.
ghost use Rattle.std.specs.Prelude.{◌≡◌, ◌<◌, ◌≤◌, length, if◌then◌else◌, Ok, Err, nat_le};
ghost use Rattle.master.specs.declared.refusal.BeginRefusal.TheVariants.{NotExpedited};
ghost use Rattle.sdo.specs.Requests.{shown_request, InitiateDownload};
ghost use Rattle.sdo.specs.Transfers.{Expedited};
ghost use Rattle.master.specs.Calls.{Read, Write, start as start_of, write_awaited, free, opening, starting, begin};
ghost use Rattle.master.specs.Limits.{most_transfers};
ghost use Rattle.master.specs.Sendings.{planned, shown_sending};
ghost use Rattle.master.specs.Shown.{shown_start, shown_begun, Begins};

use super::{MOST_TRANSFERS, Master};
use crate::direction::Direction;
use crate::method::Method;
use crate::phase::{Awaiting, Phase};
use crate::plan::{Batch, Plan};
use crate::refusal::BeginRefusal;
use crate::sending::Begun;
use sdo::{CrcOffer, ExpeditedData, Request, Transfer};
use wire::{LONGEST, Multiplexor};

impl Master {
    ghost use Rattle.std.specs.Borrow.{sem};
    ghost use Rattle.master.specs.Lending.{leaves};

    /// Begins a read, or says why not. It is refused by 1 where an earlier transfer has not been cleared, by 2 while the master rests,
    /// by 3 after 65,535 transfers.
    #[inline(always)]
    pub fn begin_read(&mut self, multiplexor: Multiplexor) -> Result<Begun<'_>, BeginRefusal>
        ensures* state { sem 𝓛 (leaves self.entry (begin self.old multiplexor Read).next) }
        ensures answer { shown_begun result ≡ (begin self.old multiplexor Read).answer }
    {
        let plan = self.start_read(multiplexor)?;
        Ok(self.lend_start(plan))
    }

    /// Begins a write of a value, or says why not. It is refused as a read is, then by 4 unless the value has 1 to 1,024 bytes,
    /// and expedited by 5 above four bytes.
    #[inline(always)]
    pub fn begin_write(
        &mut self,
        method: Method,
        multiplexor: Multiplexor,
        value: &[u8],
    ) -> Result<Begun<'_>, BeginRefusal>
        ensures* state { sem 𝓛 (leaves self.entry (begin self.old multiplexor (Write method value.now)).next) }
        ensures answer { shown_begun result ≡ (begin self.old multiplexor (Write method value.now)).answer }
    {
        let plan = self.start_write(method, multiplexor, value)?;
        Ok(self.lend_start(plan))
    }

    /// The number of a transfer that was begun, and its start.
    #[inline(always)]
    fn lend_start(&self, plan: Plan) -> Begun<'_>
        ensures number { result.number ≡ self.now.begun }
        ensures sending { shown_sending result.sending ≡ planned self.now plan }
    {
        Begun {
            number: self.begun,
            sending: self.lend(plan),
        }
    }

    /// Begins a read, or says why not.
    #[tactic(auto, unfolding(crate::specs::Calls::begin))]
    fn start_read(&mut self, multiplexor: Multiplexor) -> Result<Plan, BeginRefusal>
        ensures { Begins (begin self.old multiplexor Read) self.new result }
    {
        self.free()?;
        self.direction = Direction::Upload;
        self.value.clear();
        let start = Request::InitiateUpload { multiplexor };
        Ok(self.open(multiplexor, Awaiting::InitiateUpload, start))
    }

    /// Begins a write of a value, or says why not.
    #[tactic(auto, unfolding(crate::specs::Calls::begin))]
    fn start_write(
        &mut self,
        method: Method,
        multiplexor: Multiplexor,
        value: &[u8],
    ) -> Result<Plan, BeginRefusal>
        ensures { Begins (begin self.old multiplexor (Write method value.now)) self.new result }
    {
        self.free()?;
        let start = write_start(method, multiplexor, value)?;
        self.direction = Direction::Download;
        self.value.clear();
        self.value.try_extend_from_slice(value).unwrap();
        Ok(self.open(multiplexor, write_awaited(method), start))
    }

    /// Whether nothing speaks against a transfer, or what does.
    fn free(&self) -> Result<(), BeginRefusal>
        ensures { result ≡ free self.now }
    {
        match self.phase {
            Phase::Open(_) | Phase::Over(_) => Err(BeginRefusal::NotCleared),
            Phase::Idle if self.rest > 0 => Err(BeginRefusal::Resting),
            Phase::Idle if self.begun == MOST_TRANSFERS => Err(BeginRefusal::AllBegun),
            Phase::Idle => Ok(()),
        }
    }

    /// Opens the next transfer by its start.
    #[inline(always)]
    fn open(&mut self, multiplexor: Multiplexor, awaiting: Awaiting, start: Request) -> Plan
        requires { self.old.begun < most_transfers }
        ensures { Begins (record { next = opening self.old multiplexor awaiting; answer = Ok (starting self.old (shown_request start)) }) self.new (Ok result) }
    {
        self.begun += 1;
        self.phase = Phase::Open(awaiting);
        self.multiplexor = multiplexor;
        self.highest = 0;
        self.ticks = 0;
        Plan {
            quiet: true,
            batch: Batch::One(start.to_frame(self.node)),
        }
    }
}

/// The start of a write, or what speaks against the value.
fn write_start(
    method: Method,
    multiplexor: Multiplexor,
    value: &[u8],
) -> Result<Request, BeginRefusal>
    ensures { shown_start result ≡ start_of multiplexor (Write method value.now) }
{
    if value.is_empty() || value.len() > LONGEST {
        return Err(BeginRefusal::ValueLength);
    }
    let size = Some(value.len() as u32);
    match method {
        Method::Expedited => expedited_start(multiplexor, value),
        Method::Segmented => Ok(Request::InitiateDownload {
            multiplexor,
            transfer: Transfer::Segmented { size },
        }),
        Method::Block => Ok(Request::InitiateBlockDownload {
            multiplexor,
            crc: CrcOffer::Offered,
            size,
        }),
    }
}

/// The start of a write that carries its value, or the refusal of a value that it cannot carry.
fn expedited_start(multiplexor: Multiplexor, value: &[u8]) -> Result<Request, BeginRefusal>
    requires { 1 ≤ length value.now }
    ensures { shown_start result ≡ (if nat_le (length value.now) 4 then Ok (InitiateDownload multiplexor (Expedited value.now)) else Err NotExpedited) }
{
    let data = ExpeditedData::new(value).ok_or(BeginRefusal::NotExpedited)?;
    Ok(Request::InitiateDownload {
        multiplexor,
        transfer: Transfer::Expedited { data },
    })
}

/// The answer to the start of a write.
fn write_awaited(method: Method) -> Awaiting
    ensures { result ≡ write_awaited method }
{
    match method {
        Method::Expedited => Awaiting::ExpeditedDownload,
        Method::Segmented => Awaiting::InitiateDownload,
        Method::Block => Awaiting::InitiateBlockDownload,
    }
}
