//! The data of the files, one transfer after another.
ghost use Rattle.std.specs.Prelude.{◌≡◌, ◌≢◌, ◌≤◌, ◌<◌, ◌+◌, ◌^◌, ℕ, true, false, length, Some, None, Ok, Err, IfOk, IfErr, OnOk, MatchResult, slice_get};
ghost use Rattle.psr_base.specs.Inputs.{HasReadFrom};
ghost use Rattle.psr_base.specs.Told.{OfFile, left_to_read};
ghost use Rattle.dada_model.specs.Fields.{header_of};
ghost use Rattle.stream_model.specs.Walk.{data_of};
ghost use Rattle.stream_model.specs.WalkLaws.{AreStarts};
ghost use Rattle.disk_feeder.specs.Front.{ReadsHeader, BreaksHeader, FailsUntold};
ghost use Rattle.disk_feeder.specs.Plan.{IsPlace, begin_at};

use crate::answers::{FeedEnd, FeedFault, HeaderCause};
use crate::front::{HeaderStop, read_header};
use crate::place::{First, Place};
use crate::reached::walk_goes_on;
use dada_header::Header;
use obs_plan::Observation;
use psr_base::{Inputs, Memory};
use std::alloc::Global;
// Laws: they do nothing when they run, and the proofs use what they ensure.
use psr_base::reads_join;
use stream_model::{
    data_grow, data_join, data_none, files_are_in_transfers, first_stop_counts, one_transfer_more,
    transfers_join,
};

// Space for the bytes of the longest header.
fn zeros(alloc: Global) -> Result<Vec<u8>, Memory>
    ensures { IfOk result (λ space. length space.items ≡ 65536) }
{
    Ok(vec![in alloc; 0u8; 65536]?)
}

/// The files of a stream, and how far they were read. It reads from inputs that it is given at each call.
#[derive(Drop)]
pub(crate) struct Source<'a> {
    names: &'a [String],
    starts: &'a [u32],
    max_bytes: u64,
    /// The first header of each transfer.
    headers: Vec<Header>,
    /// What was accepted of each first header.
    pub(crate) firsts: [Option<First>; 8],
    /// Where the bytes of headers are read to.
    space: Vec<u8>,
    /// Where the header of a file that is opened for its data is read to.
    later: Header,
    place: Place,
    ghost files: { length names.now ≤ 65535 },
    ghost transfers: { length starts.now ≤ 8 },
    ghost begin: { AreStarts starts.now (length names.now) },
    ghost limit: { max_bytes ≤ 2 ^ 48 },
    ghost headed: { length headers.items ≡ length starts.now },
    ghost room: { length space.items ≡ 65536 },
    ghost placed: { IsPlace starts.now (length names.now) max_bytes place },
}

impl<'a> Source<'a> {
    ghost use Rattle.disk_feeder.specs.Sources.{plan_of, current_name, ComesEarly, FailsToOpen, StaysAt, HasMore, Advances, RefusesText, IsCounted, first_place, first_name, KeepsHeaders, HasHeaderAt, RefusesFirst, IsKept};
    ghost use Rattle.psr_base.specs.Told.{Told};
    ghost use Rattle.disk_feeder.specs.Reading.{OpensTo, ReadsTo, EndsTransfer};
    ghost use Rattle.disk_feeder.specs.History.{ReadsUpTo, ReadsOn};
    ghost use Rattle.disk_feeder.specs.Beginning.{KeepsSource, HeadersRead, LastLeft, FirstsRead, BreaksFirst, NamesFile, RefusesSome};
    ghost use Rattle.disk_feeder.specs.Filling.{HoldsAll};
    ghost use Rattle.disk_feeder.specs.Plan.{AreAccepted};

    /// Nothing was read. The space for all headers is taken here.
    pub(crate) fn open(
        alloc: Global,
        names: &'a [String],
        starts: &'a [u32],
        max_bytes: u64,
    ) -> Result<Source<'a>, Memory>
        requires files { length names.now ≤ 65535 }
        requires transfers { length starts.now ≤ 8 }
        requires begin { AreStarts starts.now (length names.now) }
        requires limit { max_bytes ≤ 2 ^ 48 }
        ensures names { IfOk result (λ s. s.names.now ≡ names.now) }
        ensures starts { IfOk result (λ s. s.starts.now ≡ starts.now) }
        ensures limit { IfOk result (λ s. s.max_bytes ≡ max_bytes) }
        ensures place { IfOk result (λ s. s.place ≡ first_place) }
    {
        let mut headers = Vec::new(alloc);
        for start in starts {
            let _ = start;
            headers.push(Header::blank(alloc)?)?;
        }
        let space = zeros(alloc)?;
        let later = Header::blank(alloc)?;
        Ok(Source {
            names,
            starts,
            max_bytes,
            headers,
            firsts: [None; 8],
            space,
            later,
            place: Place {
                transfer: 0,
                file: 0,
                is_open: false,
                since: 0,
                total: 0,
            },
        })
    }

    /// Opens the first file of a transfer and reads its header.
    pub(crate) fn read_first<I: Inputs>(
        &mut self,
        inputs: &mut I,
        transfer: usize,
    ) -> Result<(), FeedFault>
        requires { transfer < length self.old.starts.now }
        ensures kept { KeepsHeaders self.old transfer self.new }
        ensures header { OnOk result (OfFile (I.told inputs.old) (first_name self.old transfer)
            (HasHeaderAt self.new transfer)) }
        ensures left { OnOk result (OfFile (I.told inputs.old) (first_name self.old transfer)
            (λ file. left_to_read (I.told inputs.new) ≡ Some (data_of file))) }
        ensures read { OnOk result (ReadsHeader (first_name self.old transfer)
            (I.told inputs.old) (I.told inputs.new)) }
        ensures broke { result ≡ Err FeedFault.ReadFault
            → BreaksHeader (first_name self.old transfer) (I.told inputs.old)
            (I.told inputs.new) }
        ensures refused { IfErr result (λ fault. NamesFile fault
            (begin_at self.old.starts.now (length self.old.names.now) transfer)
            × OfFile (I.told inputs.old) (first_name self.old transfer) (λ file. RefusesFirst file
            (begin_at self.old.starts.now (length self.old.names.now) transfer) fault)) }
        ensures is_open { OnOk result (I.is_open inputs.new) }
        ensures inputs { HasReadFrom I.told I.is_calm I.faults (result ≡ Err FeedFault.ReadFault)
            inputs.old inputs.new }
        ensures serves { I.is_calm inputs.old → result ≡ Err FeedFault.ReadFault
            → FailsUntold (first_name self.old transfer) (I.told inputs.old)
            (I.told inputs.new) }
    {
        let file = self.begin(transfer);
        let name = self.names[file].as_str();
        let header = &mut self.headers[transfer];
        match read_header(inputs, name, self.space.as_mut_slice(), header) {
            Ok(()) => Ok(()),
            Err(HeaderStop::Failed) => Err(FeedFault::ReadFault),
            Err(HeaderStop::Refused(cause)) => Err(FeedFault::BadHeader {
                file: file as u32,
                cause,
            }),
        }
    }

    /// Opens the first file of each transfer in order and reads its header.
    pub(crate) fn read_headers<I: Inputs>(&mut self, inputs: &mut I) -> Result<(), FeedFault>
        ensures kept { KeepsSource self.old self.new }
        ensures headers { OnOk result (HeadersRead (I.told inputs.old) self.old
            (length self.old.starts.now) self.new) }
        ensures left { OnOk result (LastLeft (I.told inputs.old) self.old
            (length self.old.starts.now) (I.told inputs.new)) }
        ensures read { OnOk result (FirstsRead (I.told inputs.old) self.old
            (length self.old.starts.now) (I.told inputs.new)) }
        ensures broke { result ≡ Err FeedFault.ReadFault
            → BreaksFirst (I.told inputs.old) (I.is_calm inputs.old) self.old
            (I.told inputs.new) }
        ensures refused { IfErr result (RefusesSome (I.told inputs.old) self.old) }
        ensures is_open { OnOk result (I.is_open inputs.new) }
        ensures inputs { HasReadFrom I.told I.is_calm I.faults (result ≡ Err FeedFault.ReadFault)
            inputs.old inputs.new }
        ensures serves { I.is_calm inputs.old
            → HoldsAll (I.told inputs.old) (plan_of self.old).names
            → result ≢ Err FeedFault.ReadFault }
    {
        for transfer in 0..self.starts.len() {
            match self.read_first(inputs, transfer) {
                Ok(()) => {}
                Err(fault) => return Err(fault),
            }
        }
        Ok(())
    }

    /// Begins with the data. If there is one transfer, its open file is read on; else the first file is opened again.
    pub(crate) fn start(&mut self)
        requires { self.old.place ≡ first_place }
        ensures plan { plan_of self.new ≡ plan_of self.old }
        ensures one { length self.old.starts.now ≡ 1
            → self.new.place ≡ record first_place { is_open = true } }
        ensures more { length self.old.starts.now ≢ 1 → self.new.place ≡ first_place }
    {
        self.place.is_open = self.starts.len() == 1;
    }

    /// Keeps the observation of a transfer's first header.
    pub(crate) fn accept(&mut self, transfer: usize, observation: &Observation)
        requires there { transfer < length self.old.starts.now }
        ensures names { self.new.names ≡ self.old.names }
        ensures starts { self.new.starts ≡ self.old.starts }
        ensures limit { self.new.max_bytes ≡ self.old.max_bytes }
        ensures headers { self.new.headers ≡ self.old.headers }
        ensures place { self.new.place ≡ self.old.place }
        ensures first { IsKept transfer observation.now self.new.firsts }
        ensures others { (k : ℕ) → k ≢ transfer
            → slice_get self.new.firsts k ≡ slice_get self.old.firsts k }
    {
        self.firsts[transfer] = Some(First::of(observation));
    }

    /// The first header of a transfer.
    pub(crate) fn header_of(&self, transfer: usize) -> &Header
        requires { transfer < length self.now.starts.now }
        ensures { slice_get self.now.headers.items transfer ≡ Some result.now }
    {
        &self.headers[transfer]
    }

    // The number of the file with which a transfer begins, or how many files there are.
    fn begin(&self, transfer: usize) -> usize
        ensures { result ≡ begin_at self.now.starts.now (length self.now.names.now) transfer }
    {
        match self.starts.get(transfer) {
            Some(start) => *start as usize,
            None => self.names.len(),
        }
    }

    /// Whether all data of the transfer were read.
    pub(crate) fn is_transfer_over(&self) -> bool
        requires { self.now.place.transfer < length self.now.starts.now }
        ensures over { result ≡ true → (self.now.place.is_open ≡ false) × (self.now.place.file
            ≡ begin_at self.now.starts.now (length self.now.names.now)
            (self.now.place.transfer + 1)) }
        ensures more { result ≡ false → self.now.place.file
            < begin_at self.now.starts.now (length self.now.names.now)
            (self.now.place.transfer + 1) }
    {
        !self.place.is_open && self.place.file == self.begin(self.place.transfer + 1)
    }

    // Opens the file at the present place and reads its header.
    fn open_file<I: Inputs>(&mut self, inputs: &mut I) -> Result<(), FeedEnd>
        requires there { self.old.place.file < length self.old.names.now }
        ensures stays { StaysAt self.old self.new }
        ensures header { OnOk result (OfFile (I.told inputs.old) (current_name self.old)
            (λ file. header_of file ≡ Ok self.new.later)) }
        ensures left { OnOk result (OfFile (I.told inputs.old) (current_name self.old)
            (λ file. left_to_read (I.told inputs.new) ≡ Some (data_of file))) }
        ensures read { OnOk result (ReadsHeader (current_name self.old) (I.told inputs.old)
            (I.told inputs.new)) }
        ensures broke { result ≡ Err FeedEnd.ReadFault
            → BreaksHeader (current_name self.old) (I.told inputs.old) (I.told inputs.new) }
        ensures stopped { IfErr result (λ end. ComesEarly (plan_of self.old) self.old.place end
            × OfFile (I.told inputs.old) (current_name self.old)
            (λ file. RefusesText file self.old.place.file end)) }
        ensures is_open { OnOk result (I.is_open inputs.new) }
        ensures inputs { HasReadFrom I.told I.is_calm I.faults (result ≡ Err FeedEnd.ReadFault)
            inputs.old inputs.new }
        ensures serves { I.is_calm inputs.old → result ≡ Err FeedEnd.ReadFault
            → FailsUntold (current_name self.old) (I.told inputs.old) (I.told inputs.new) }
    {
        let file = self.place.file;
        let name = self.names[file].as_str();
        match read_header(inputs, name, self.space.as_mut_slice(), &mut self.later) {
            Ok(()) => Ok(()),
            Err(HeaderStop::Failed) => Err(FeedEnd::ReadFault),
            Err(HeaderStop::Refused(fault)) => Err(FeedEnd::BadHeader {
                file: file as u32,
                cause: HeaderCause::Text(fault),
            }),
        }
    }

    // What was accepted of the transfer's first header.
    fn first(&self) -> First
        requires there { self.now.place.transfer < length self.now.starts.now }
        requires accepted { AreAccepted (plan_of self.now) }
        ensures { slice_get self.now.firsts self.now.place.transfer ≡ Some (Some result) }
    {
        let Some(first) = self.firsts[self.place.transfer] else {
            unreachable!()
        };
        first
    }

    // Opens the file at the present place, and judges its header.
    fn open_next<I: Inputs>(&mut self, inputs: &mut I) -> Result<(), FeedEnd>
        requires shut { self.old.place.is_open ≡ false }
        requires more { HasMore self.old }
        ensures plan { plan_of self.new ≡ plan_of self.old }
        ensures place { MatchResult result
            (λ _. self.new.place ≡ record self.old.place { is_open = true })
            (λ _. self.new.place ≡ self.old.place) }
        ensures read { OpensTo (plan_of self.old) self.old.place (I.told inputs.old)
            (I.told inputs.new) result }
        ensures reads_on { ReadsOn (plan_of self.old) self.old.place (I.told inputs.old)
            self.new.place (I.told inputs.new) result }
        ensures early { IfErr result (ComesEarly (plan_of self.old) self.old.place) }
        ensures is_open { OnOk result (I.is_open inputs.new) }
        ensures inputs { HasReadFrom I.told I.is_calm I.faults (result ≡ Err FeedEnd.ReadFault)
            inputs.old inputs.new }
        ensures serves { I.is_calm inputs.old → result ≡ Err FeedEnd.ReadFault
            → FailsToOpen self.old (I.told inputs.old) (I.told inputs.new) }
    {
        files_are_in_transfers();
        first_stop_counts();
        data_grow();
        data_join();
        walk_goes_on();
        match self.open_file(inputs) {
            Ok(()) => {
                let Place { file, since, .. } = self.place;
                match self.first().judge(file as u32, since, &self.later) {
                    Ok(()) => {
                        self.place.is_open = true;
                        Ok(())
                    }
                    Err(end) => Err(end),
                }
            }
            Err(end) => Err(end),
        }
    }

    // Closes the open file, which was read to its end.
    fn close_file(&mut self)
        requires { self.old.place.is_open ≡ true }
        ensures plan { plan_of self.new ≡ plan_of self.old }
        ensures place { self.new.place ≡ record self.old.place {
          file = self.old.place.file + 1;
          is_open = false;
        } }
    {
        let Place {
            transfer,
            file,
            since,
            total,
            ..
        } = self.place;
        self.place = Place {
            transfer,
            file: file + 1,
            is_open: false,
            since,
            total,
        };
    }

    // Counts `n` bytes that were read of the open file, if they are within the limit.
    fn count(&mut self, n: usize) -> Result<usize, FeedEnd>
        ensures plan { plan_of self.new ≡ plan_of self.old }
        ensures counted { MatchResult result (λ m. IsCounted self.old.place n m self.new.place)
            (λ end. (end ≡ FeedEnd.TooLong self.old.max_bytes)
            × (self.old.max_bytes < self.old.place.total + n)
            × (self.new.place ≡ self.old.place)) }
    {
        let bytes = n as u64;
        let Place {
            transfer,
            file,
            is_open,
            since,
            total,
        } = self.place;
        if bytes > self.max_bytes - total {
            return Err(FeedEnd::TooLong {
                limit: self.max_bytes,
            });
        }
        self.place = Place {
            transfer,
            file,
            is_open,
            since: since + bytes,
            total: total + bytes,
        };
        Ok(n)
    }

    // Reads a piece of the open file.
    fn read<I: Inputs>(&mut self, inputs: &mut I, into: &mut [u8]) -> Result<usize, FeedEnd>
        requires room { 0 < length into.old }
        requires opened { self.old.place.is_open ≡ true }
        requires is_open { I.is_open inputs.old }
        ensures on { Advances self.old self.new result }
        ensures bound { IfOk result (λ n. n ≤ length into.new) }
        ensures read { ReadsTo (plan_of self.old) self.old.place (I.told inputs.old)
            self.new.place (I.told inputs.new) into.new result }
        ensures reads_on { ReadsOn (plan_of self.old) self.old.place (I.told inputs.old)
            self.new.place (I.told inputs.new) result }
        ensures is_open { I.is_open inputs.new }
        ensures inputs { HasReadFrom I.told I.is_calm I.faults (result ≡ Err FeedEnd.ReadFault)
            inputs.old inputs.new }
        ensures serves { I.is_calm inputs.old → result ≢ Err FeedEnd.ReadFault }
    {
        files_are_in_transfers();
        first_stop_counts();
        transfers_join();
        data_join();
        data_grow();
        reads_join();
        walk_goes_on();
        match inputs.read(into) {
            Ok(n) => {
                if n == 0 {
                    self.close_file();
                    return Ok(0);
                }
                match self.count(n) {
                    Ok(n) => Ok(n),
                    Err(end) => Err(end),
                }
            }
            Err(_) => Err(FeedEnd::ReadFault),
        }
    }

    /// Opens the next file of the transfer, or reads a piece of the open one: answers how many bytes it put at the
    /// front of `into`, which may be 0, or why the stream ends.
    pub(crate) fn advance<I: Inputs>(
        &mut self,
        inputs: &mut I,
        into: &mut [u8],
    ) -> Result<usize, FeedEnd>
        requires room { 0 < length into.old }
        requires more { HasMore self.old }
        requires is_open { self.old.place.is_open ≡ true → I.is_open inputs.old }
        ensures on { Advances self.old self.new result }
        ensures bound { IfOk result (λ n. n ≤ length into.new) }
        ensures read { ReadsTo (plan_of self.old) self.old.place (I.told inputs.old)
            self.new.place (I.told inputs.new) into.new result }
        ensures reads_on { ReadsOn (plan_of self.old) self.old.place (I.told inputs.old)
            self.new.place (I.told inputs.new) result }
        ensures is_open { self.new.place.is_open ≡ true → I.is_open inputs.new }
        ensures inputs { HasReadFrom I.told I.is_calm I.faults (result ≡ Err FeedEnd.ReadFault)
            inputs.old inputs.new }
        ensures serves { I.is_calm inputs.old → result ≡ Err FeedEnd.ReadFault
            → FailsToOpen self.old (I.told inputs.old) (I.told inputs.new) }
    {
        if self.place.is_open {
            self.read(inputs, into)
        } else {
            match self.open_next(inputs) {
                Ok(()) => Ok(0),
                Err(end) => Err(end),
            }
        }
    }

    /// Goes on to the next transfer.
    pub(crate) fn next_transfer(&mut self)
        requires there { self.old.place.transfer < length self.old.starts.now }
        requires shut { self.old.place.is_open ≡ false }
        requires over { self.old.place.file ≡ begin_at self.old.starts.now
            (length self.old.names.now) (self.old.place.transfer + 1) }
        ensures plan { plan_of self.new ≡ plan_of self.old }
        ensures place { self.new.place ≡ record self.old.place {
          transfer = self.old.place.transfer + 1;
          since = 0;
        } }
        ensures read { EndsTransfer (plan_of self.old) self.old.place self.new.place }
        ensures reads_on { (before told : Told)
            → ReadsUpTo (plan_of self.old) before told self.old.place
            → ReadsUpTo (plan_of self.old) before told self.new.place }
    {
        one_transfer_more();
        data_none();
        let Place {
            transfer,
            file,
            is_open,
            total,
            ..
        } = self.place;
        self.place = Place {
            transfer: transfer + 1,
            file,
            is_open,
            since: 0,
            total,
        };
    }

    /// Whether all data of all transfers were read.
    pub(crate) fn is_over(&self) -> bool
        ensures over { result ≡ true
            → length self.now.starts.now ≡ self.now.place.transfer }
        ensures more { result ≡ false → self.now.place.transfer < length self.now.starts.now }
    {
        self.place.transfer == self.starts.len()
    }

    /// How many data bytes were read.
    pub(crate) fn total(&self) -> u64
        ensures { result ≡ self.now.place.total }
    {
        self.place.total
    }

    /// The header of the present transfer.
    pub(crate) fn header(&self) -> &Header
        requires { self.now.place.transfer < length self.now.starts.now }
        ensures { slice_get self.now.headers.items self.now.place.transfer ≡ Some result.now }
    {
        &self.headers[self.place.transfer]
    }
}
