// Laws of the rows of a plan, as functions that do nothing. A caller whose proof needs a law calls its function.
ghost use Rattle.subband_plan.specs.RowLaws.{RowsAreNumbered, RowsComeAfter};
ghost use Rattle.subband_plan.specs.Values.{RowsAddUp, RowsAreBounded, RowsBeginEmpty, BandRowsArePathSums};

use crate::nodes::asked_rows_are_there;
use crate::plan::plans_are_laid;
use search_model::{
    halves_add, late_path_sums, nothing_before, one_channel_adds, one_channel_is_its_sample,
    splits_fit, splits_step, time_shifts, whole_band_is_path_sum,
};

/// Law: the rows of node k have the numbers from `starts[k]` up to, but without, `starts[k + 1]`, and the rows that a
/// node's rows are made of are rows of its halves.
pub fn rows_are_numbered()
    ensures { RowsAreNumbered }
{
    asked_rows_are_there();
}

/// Law: the sums over the nodes of the rows are the samples of a channel, or the sum of the two rows that a row is made
/// of.
pub fn rows_add_up()
    ensures { RowsAddUp }
{
    plans_are_laid();
    rows_are_numbered();
    halves_add();
    one_channel_adds();
    one_channel_is_its_sample();
    time_shifts();
    splits_fit();
    splits_step();
}

/// Law: a value of a row is at most the greatest sample times the number of cells that it adds up.
pub fn rows_are_bounded()
    ensures { RowsAreBounded }
{
    plans_are_laid();
    halves_add();
    one_channel_adds();
    one_channel_is_its_sample();
    nothing_before();
    splits_fit();
}

/// Law: values that end before the first spectrum are 0.
pub fn rows_begin_empty()
    ensures { RowsBeginEmpty }
{
    plans_are_laid();
    nothing_before();
}

/// Law: the rows of the whole band are its path sums.
pub fn band_rows_are_path_sums()
    ensures { BandRowsArePathSums }
{
    plans_are_laid();
    rows_are_numbered();
    whole_band_is_path_sum();
    late_path_sums();
}

/// Law: a row is made of rows of nodes with greater numbers, or of earlier rows of its own node.
pub fn rows_come_after()
    ensures { RowsComeAfter }
{
    plans_are_laid();
    rows_are_numbered();
    splits_step();
}
