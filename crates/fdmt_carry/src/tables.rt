// The rows of a plan, as tables of all nodes and in passes.
ghost use Rattle.std.specs.Prelude.{◌≡◌, ℕ, ◌+◌, ◌-◌, ◌*◌, ◌≤◌, ◌<◌, length, IfOk, IfSome};
ghost use Rattle.band_paths.specs.Edges.{channels_of};
ghost use Rattle.search_model.specs.Samples.{Filterbank};
ghost use Rattle.row_schedule.specs.Halves.{HaveLength};
ghost use Rattle.row_schedule.specs.Running.{AreAsLong, HaveRoom, Stores as StoresSeen};
ghost use Rattle.row_schedule.specs.Sizes.{AreEnough, AreEnoughForTables};
ghost use Rattle.row_schedule.specs.Filling.{HaveTableRoom, WroteWide};
ghost use Rattle.row_schedule.specs.Samples.{values_of};
ghost use Rattle.subband_plan.specs.Nodes.{IsPlan, HasRow, root};
ghost use Rattle.fdmt_carry.specs.Tables.{AreTables, MakesNode, MakesTables, node_of, node_count};
ghost use Rattle.fdmt_carry.specs.Passing.{HasDone, IsBefore, IsPassOf, stop_at};
ghost use Rattle.fdmt_carry.specs.Making.{AddUpToRow, CanLeaveOut, Fills, CarriesOut, KeepsFor, MakesBandRow, ReadsBand, ReadsNode, ShowsRow};

use crate::numbers::{row_number, whole_band};
use crate::passing::{Passing, narrow_limit};
use psr_base::Memory;
use row_schedule::{Halves, Samples, Sizes, SpareStores, Stores, last_rows_are_left_out};
use search_model::splits_fit;
use std::alloc::Global;
use std::marker::Model;
use subband_plan::{
    Plan, PlanRows, band_rows_are_path_sums, plans_are_laid, rows_add_up, rows_are_bounded,
    rows_are_numbered, rows_come_after,
};

/// A plan with its rows, and the schedule by which the rows of all nodes are made.
#[derive(Drop)]
pub struct Tables {
    plan: Plan,
    chunk: u32,
    most: u32,
    rows: PlanRows,
}

impl Model for Tables {
    ghost use Rattle.fdmt_carry.specs.Tables.{Tables, AreTables, tables};

    ghost Value = { Tables };

    ghost view = { λ t. tables t.plan t.chunk t.most t.rows };

    ghost invariant = { λ t. AreTables (tables t.plan t.chunk t.most t.rows) };
}

impl Tables {
    /// The tables of a plan, for passes over at most `chunk` spectra, and for the rows of all nodes over at most `most`
    /// spectra.
    pub fn of(alloc: Global, plan: Plan, chunk: u32, most: u32) -> Result<Tables, Memory>
        requires short { chunk ≤ 65536 }
        requires within { most ≤ chunk }
        ensures plan { IfOk result (λ t. t.plan ≡ plan) }
        ensures chunk { IfOk result (λ t. t.chunk ≡ chunk) }
        ensures most { IfOk result (λ t. t.most ≡ most) }
    {
        let rows = PlanRows::of(alloc, &plan)?;
        let _ = plan.edges();
        Ok(Tables {
            plan,
            chunk,
            most,
            rows,
        })
    }

    /// A pass for samples up to `limit`.
    pub fn passing(&self, alloc: Global, limit: u32) -> Result<Passing, Memory>
        ensures { IfOk result (λ pass. IsPassOf self.now limit pass) }
    {
        Passing::of(alloc, &self.plan, &self.rows, self.chunk, limit)
    }

    /// A limit of samples up to which a pass is fast.
    pub fn narrow_limit(&self) -> u32 {
        narrow_limit(&self.plan)
    }

    /// Law: the rows are those of the plan, and the numbers of spectra are in range. It does nothing.
    pub fn hold(&self)
        ensures { AreTables self.now }
    {
        let _ = &self.plan;
    }

    /// The plan.
    pub fn plan(&self) -> &Plan
        ensures { result.now ≡ self.now.plan }
    {
        &self.plan
    }

    /// The sizes of lists in which the rows of all nodes are made, and on which a pass works.
    pub fn room(&self, pass: &Passing) -> Sizes
        ensures tables { AreEnoughForTables self.now.rows.rows self.now.most result }
        ensures pass { AreEnough pass.now.schedule result }
    {
        self.hold();
        Sizes::of_tables(&self.rows.rows, self.most as usize).most(pass.schedule.sizes())
    }

    /// The maximum number of spectra over which the rows of all nodes are made.
    pub fn most(&self) -> u32
        ensures { result ≡ self.now.most }
    {
        self.most
    }

    /// The first and the last delay of the whole band.
    pub fn delays(&self) -> (u32, u32)
        ensures first { result.0 ≡ self.now.plan.first }
        ensures last { result.1 ≡ self.now.plan.last }
        ensures plan { IsPlan self.now.plan }
    {
        let band = whole_band(&self.plan);
        (band.first_row, band.last_row)
    }

    // How many orders of a pass are carried out when it comes to the row of delay `d` of the whole band, or to its end.
    fn stop(&self, pass: &Passing, d: u32) -> usize
        requires pass { (m : ℕ) × IsPassOf self.now m pass.now }
        requires from { self.now.plan.first ≤ d }
        requires to { d ≤ self.now.plan.last + 1 }
        ensures { result ≡ stop_at self.now pass.now d }
    {
        let (first, _) = self.delays();
        pass.stops[(d - first) as usize]
    }

    // The order of a pass that makes the row of delay `d` of the whole band.
    fn shown(&self, pass: &Passing, d: u32) -> usize
        requires pass { (m : ℕ) × IsPassOf self.now m pass.now }
        requires row { HasRow (root self.now.plan) d }
        ensures { ShowsRow self.now pass.now d result }
    {
        plans_are_laid();
        rows_are_numbered();
        self.hold();
        self.stop(pass, d + 1) - 1
    }

    /// Makes the rows of all nodes over the next spectra, and keeps of them what the pass keeps.
    pub fn fill(&self, pass: &Passing, stores: &mut Stores, samples: Samples<'_>, spectra: usize)
        requires pass { (m : ℕ) × IsPassOf self.now m pass.now }
        requires room { HaveTableRoom self.now.rows.rows self.now.most stores.old }
        requires pass_room { HaveRoom pass.now.schedule stores.old }
        requires samples { channels_of self.now.plan.edges * self.now.chunk
            ≤ length (values_of samples) + (self.now.chunk - spectra) }
        requires short { spectra ≤ self.now.most }
        ensures long { AreAsLong stores.old stores.new }
        ensures fills { Fills self.now pass.now spectra (values_of samples.entry) stores.old
            stores.new }
    {
        rows_add_up();
        rows_are_bounded();
        self.hold();
        self.fill_nodes(pass, stores, samples, spectra);
        stores.keep_rows(&self.rows.rows, &pass.schedule, self.most as usize, spectra);
    }

    // Makes the rows of all nodes, from the last node to the first.
    fn fill_nodes(&self, pass: &Passing, stores: &mut Stores, samples: Samples<'_>, spectra: usize)
        requires pass { (m : ℕ) × IsPassOf self.now m pass.now }
        requires room { HaveTableRoom self.now.rows.rows self.now.most stores.old }
        requires pass_room { HaveRoom pass.now.schedule stores.old }
        requires samples { channels_of self.now.plan.edges * self.now.chunk
            ≤ length (values_of samples) + (self.now.chunk - spectra) }
        requires short { spectra ≤ self.now.most }
        ensures wrote { WroteWide stores.old stores.new }
        ensures makes { MakesTables self.now pass.now.schedule.narrow spectra
            (values_of samples.entry) stores.old stores.new }
    {
        self.hold();
        let count = self.plan.nodes();
        for done in 0..count {
            self.fill_node(pass, count - 1 - done, stores, samples, spectra);
        }
    }

    // Makes the rows of node `k`, by rising delay.
    fn fill_node(
        &self,
        pass: &Passing,
        k: usize,
        stores: &mut Stores,
        samples: Samples<'_>,
        spectra: usize,
    )
        requires pass { (m : ℕ) × IsPassOf self.now m pass.now }
        requires node { k < node_count self.now }
        requires room { HaveTableRoom self.now.rows.rows self.now.most stores.old }
        requires pass_room { HaveRoom pass.now.schedule stores.old }
        requires samples { channels_of self.now.plan.edges * self.now.chunk
            ≤ length (values_of samples) + (self.now.chunk - spectra) }
        requires short { spectra ≤ self.now.most }
        ensures wrote { WroteWide stores.old stores.new }
        ensures makes { MakesNode self.now pass.now.schedule.narrow k spectra
            (values_of samples.entry) stores.old stores.new }
    {
        plans_are_laid();
        rows_are_numbered();
        rows_come_after();
        self.hold();
        let (room, chunk) = (self.most as usize, self.chunk as usize);
        for r in self.rows.starts[k]..self.rows.starts[k + 1] {
            stores.fill_row(
                &self.rows.rows,
                &pass.schedule,
                r,
                room,
                samples,
                chunk,
                spectra,
            );
        }
    }

    /// Goes over from one pass to the next and its lists, and moves what is kept of rows there.
    pub fn go_over(&self, pass: &Passing, next: &Passing, spare: SpareStores, stores: &mut Stores)
        requires pass { (m : ℕ) × IsPassOf self.now m pass.now }
        requires next { (m : ℕ) × IsPassOf self.now m next.now }
        requires room { HaveRoom pass.now.schedule stores.old }
        requires next_room { AreEnough next.now.schedule spare }
        requires table_room { AreEnoughForTables self.now.rows.rows self.now.most spare }
        ensures room { HaveRoom next.now.schedule stores.new }
        ensures table_room { HaveTableRoom self.now.rows.rows self.now.most stores.new }
        ensures keeps { KeepsFor self.now pass.now next.now stores.old stores.new }
    {
        rows_are_bounded();
        stores.go_over(&self.rows.rows, &pass.schedule, &next.schedule, spare);
    }

    /// Law: a pass begins before the row of the first delay. It does nothing.
    pub fn begins(&self, pass: &Passing)
        requires { (m : ℕ) × IsPassOf self.now m pass.now }
        ensures { IsBefore self.now pass.now self.now.plan.first 0 }
    {
        plans_are_laid();
        rows_are_numbered();
        self.hold();
        let _ = &pass.stops;
    }

    /// Carries out the orders of a pass up to, but without, the one that makes the row of delay `d` of the whole band.
    /// `done` orders were carried out before; answers how many are now.
    pub fn reach_row(
        &self,
        pass: &Passing,
        d: u32,
        done: usize,
        stores: &mut Stores,
        samples: Samples<'_>,
        spectra: usize,
    ) -> usize
        requires pass { (m : ℕ) × IsPassOf self.now m pass.now }
        requires row { HasRow (root self.now.plan) d }
        requires before { IsBefore self.now pass.now d done }
        requires room { HaveRoom pass.now.schedule stores.old }
        requires samples { channels_of self.now.plan.edges * self.now.chunk
            ≤ length (values_of samples) + (self.now.chunk - spectra) }
        requires short { spectra ≤ self.now.chunk }
        ensures long { AreAsLong stores.old stores.new }
        ensures before { IsBefore self.now pass.now d result }
        ensures on { CarriesOut self.now pass.now done result spectra (values_of samples.entry)
            stores.old stores.new }
    {
        rows_add_up();
        rows_are_bounded();
        plans_are_laid();
        rows_are_numbered();
        self.hold();
        let order = self.shown(pass, d);
        pass.schedule.run(done, order, stores, samples, spectra);
        order
    }

    /// Makes the row of delay `d` of the whole band. `done` orders were carried out before; answers how many are now.
    pub fn make_row(
        &self,
        pass: &Passing,
        d: u32,
        done: usize,
        stores: &mut Stores,
        samples: Samples<'_>,
        spectra: usize,
    ) -> usize
        requires pass { (m : ℕ) × IsPassOf self.now m pass.now }
        requires row { HasRow (root self.now.plan) d }
        requires before { IsBefore self.now pass.now d done }
        requires room { HaveRoom pass.now.schedule stores.old }
        requires samples { channels_of self.now.plan.edges * self.now.chunk
            ≤ length (values_of samples) + (self.now.chunk - spectra) }
        requires short { spectra ≤ self.now.chunk }
        ensures long { AreAsLong stores.old stores.new }
        ensures before { IsBefore self.now pass.now (d + 1) result }
        ensures on { CarriesOut self.now pass.now done result spectra (values_of samples.entry)
            stores.old stores.new }
        ensures made { MakesBandRow self.now pass.now d done spectra (values_of samples.entry)
            stores.old stores.new }
    {
        rows_add_up();
        rows_are_bounded();
        plans_are_laid();
        rows_are_numbered();
        self.hold();
        let to = self.stop(pass, d + 1);
        pass.schedule.run(done, to, stores, samples, spectra);
        to
    }

    /// The two rows of 16 bits whose sum is the row of delay `d` of the whole band. `None` if that row can't be left
    /// out, or if the next order, after `done` orders, doesn't make it of two such rows.
    pub fn halves<'a>(
        &self,
        pass: &Passing,
        d: u32,
        done: usize,
        stores: &'a Stores,
        spectra: usize,
    ) -> Option<Halves<'a>>
        requires pass { (m : ℕ) × IsPassOf self.now m pass.now }
        requires row { HasRow (root self.now.plan) d }
        requires room { HaveRoom pass.now.schedule stores.now }
        requires short { spectra ≤ self.now.chunk }
        ensures long { IfSome result (HaveLength spectra) }
        ensures leave { IfSome result (λ halves. CanLeaveOut self.now pass.now d done) }
        ensures sums { IfSome result
            (AddUpToRow self.now pass.now d done spectra stores.now) }
    {
        rows_add_up();
        rows_are_bounded();
        band_rows_are_path_sums();
        self.hold();
        let order = self.shown(pass, d);
        if done != order || !pass.can_leave_out {
            return None;
        }
        pass.schedule.halves(order, stores, spectra)
    }

    /// Leaves the row of delay `d` of the whole band out. `done` orders were carried out before; answers how many are
    /// now.
    pub fn leave_out(&self, pass: &Passing, d: u32, done: usize) -> usize
        requires pass { (m : ℕ) × IsPassOf self.now m pass.now }
        requires leave { CanLeaveOut self.now pass.now d done }
        ensures before { IsBefore self.now pass.now (d + 1) result }
        ensures left { (f : Filterbank) (u spectra : ℕ) (st : StoresSeen)
            → HasDone self.now pass.now f u spectra done st
            → HasDone self.now pass.now f u spectra result st }
    {
        last_rows_are_left_out();
        plans_are_laid();
        rows_are_numbered();
        self.hold();
        self.stop(pass, d + 1)
    }

    /// The row of delay `d` of the whole band, which the pass made last.
    pub fn made<'a>(&self, pass: &Passing, d: u32, stores: &'a Stores, spectra: usize) -> &'a [u32]
        requires pass { (m : ℕ) × IsPassOf self.now m pass.now }
        requires row { HasRow (root self.now.plan) d }
        requires room { pass.now.schedule.wide_size ≤ length stores.now.wide }
        requires short { spectra ≤ self.now.chunk }
        ensures long { length result.now ≡ spectra }
        ensures sums { ReadsBand self.now pass.now d spectra stores.now.wide result.now }
    {
        rows_add_up();
        rows_are_bounded();
        band_rows_are_path_sums();
        plans_are_laid();
        splits_fit();
        self.hold();
        let order = self.shown(pass, d);
        pass.schedule.row(&self.rows.rows, stores, order, spectra)
    }

    /// The row of delay `d` of node `k`, made with those of all nodes.
    pub fn table<'a>(&self, k: usize, d: u32, stores: &'a Stores, spectra: usize) -> &'a [u32]
        requires node { k < node_count self.now }
        requires row { HasRow (node_of self.now k) d }
        requires room { HaveTableRoom self.now.rows.rows self.now.most stores.now }
        requires short { spectra ≤ self.now.most }
        ensures long { length result.now ≡ spectra }
        ensures sums { ReadsNode self.now k d spectra stores.now.wide result.now }
    {
        rows_are_bounded();
        plans_are_laid();
        splits_fit();
        self.hold();
        let r = row_number(&self.plan, &self.rows, k, d);
        stores.filled(self.most as usize, r, spectra)
    }
}
