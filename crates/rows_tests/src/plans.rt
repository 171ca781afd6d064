// Plans over two and three channels, worked by hand from the split of a delay.
ghost use Rattle.subband_plan.specs.Rows.{ArePlanRows};

use row_model::Source;
use std::alloc::{AllocError, Global};
use std::test::Fail;
use subband_plan::{Plan, PlanRows};

const TWO: [u32; 3] = [1_500_000, 1_400_000, 1_300_000];

const THREE: [u32; 4] = [1_600_000, 1_500_000, 1_400_000, 1_300_000];

// Of each plan: its channels and delays; the number of rows of its nodes, and of their values with tails in chunks of
// 10 spectra; the nodes, each with its channels, delays, tail, and the number of its first row; and the rows of
// `PlanRows`, each with its node and delay, what it is made of, and how much of it is kept.
const PLANS: &str = "
2 0 1 | 5 51 | 0-2 0-1 0 0; 0-1 0-0 1 2; 1-2 0-1 0 3; \
    | 0/0 2+3@0 16; 0/1 0+3@1 0; 1/0 c0 0; 2/0 c1 16; 2/1 3+3@1 0;
2 2 4 | 7 74 | 0-2 2-4 0 0; 0-1 1-2 2 5; 1-2 1-2 0 8; \
    | 0/0 5+8@0 16; 0/1 0+8@1 0; 0/2 5+1@2 16; 0/3 2+8@1 0; 0/4 5+3@4 0; \
    1/0 c0 16; 1/1 5+5@1 0; 1/2 5+6@2 0; 2/0 c1 16; 2/1 8+8@1 0; 2/2 8+9@2 0;
3 6 6 | 5 56 | 0-3 6-6 0 0; 0-1 2-2 4 1; 1-3 4-4 0 4; 1-2 2-2 2 9; 2-3 2-2 0 12; \
    | 0/6 3+8@4 0; 1/0 c0 16; 1/1 1+1@1 0; 1/2 1+2@2 16; \
    2/0 9+12@0 16; 2/1 4+12@1 0; 2/2 9+5@2 16; 2/3 6+12@1 0; 2/4 9+7@4 0; \
    3/0 c1 16; 3/1 9+9@1 0; 3/2 9+10@2 0; 4/0 c2 16; 4/1 12+12@1 0; 4/2 12+13@2 0;
";

// The fields of a line, with `|` between them. Missing ones are empty.
fn fields_of(line: &'static str) -> [&'static str; 4] {
    let mut fields = [""; 4];
    for (i, field) in line.split('|').enumerate() {
        if i < fields.len() {
            fields[i] = field.trim();
        }
    }
    fields
}

// The plan of a line.
fn plan_of(alloc: Global, setting: &'static str) -> Result<Plan, Fail> {
    let plan = match setting {
        "2 0 1" => Plan::open(alloc, &TWO, 0, 1)?,
        "2 2 4" => Plan::open(alloc, &TWO, 2, 4)?,
        _ => Plan::open(alloc, &THREE, 6, 6)?,
    };
    Ok(plan)
}

// The nodes of a plan in the form of a line.
fn nodes_of(alloc: Global, plan: &Plan, rows: &PlanRows) -> Result<String, AllocError>
    requires { ArePlanRows plan.now rows.now }
{
    let mut text = String::new(alloc);
    for k in 0..plan.nodes() {
        let node = plan.node(k);
        let part = format!(in alloc;
            "{}-{} {}-{} {}",
            node.lo, node.hi, node.first_row, node.last_row, node.tail
        )?;
        let start = format!(in alloc; " {}; ", rows.starts[k])?;
        text.push_str(part.as_str())?;
        text.push_str(start.as_str())?;
    }
    Ok(text)
}

fn source_of(alloc: Global, source: Source) -> Result<String, AllocError> {
    match source {
        Source::Channel(channel) => format!(in alloc; "c{channel}"),
        Source::Sum(merge) => format!(in alloc; "{}+{}@{}", merge.upper, merge.lower, merge.late),
    }
}

// The rows of a plan in the form of a line.
fn rows_of(alloc: Global, plan: &Plan, rows: &PlanRows) -> Result<String, AllocError>
    requires { ArePlanRows plan.now rows.now }
{
    let mut text = String::new(alloc);
    for r in 0..rows.rows.sources.len() {
        let label = format!(in alloc; "{}/{} ", rows.nodes[r], rows.delays[r])?;
        let source = source_of(alloc, rows.rows.sources[r])?;
        let tail = format!(in alloc; " {}; ", rows.rows.tails[r])?;
        text.push_str(label.as_str())?;
        text.push_str(source.as_str())?;
        text.push_str(tail.as_str())?;
    }
    Ok(text)
}

// Whether the plan of a line has the values of the line.
fn is_planned(alloc: Global, line: &'static str) -> Result<bool, Fail> {
    let [setting, counts, nodes, wanted, ..] = fields_of(line);
    let plan = plan_of(alloc, setting)?;
    let rows = PlanRows::of(alloc, &plan)?;
    let sizes = format!(in alloc; "{} {}", plan.rows(), plan.words(10))?;
    let node_text = nodes_of(alloc, &plan, &rows)?;
    let row_text = rows_of(alloc, &plan, &rows)?;
    Ok(
        sizes.as_str() == counts
            && node_text.as_str().trim() == nodes
            && row_text.as_str().trim() == wanted,
    )
}

#[test]
fn nodes_and_rows_are_as_worked(rt: HostRuntime) -> Result<(), Fail> {
    for line in PLANS.lines() {
        assert!(rt;
            line.is_empty() || is_planned(rt.alloc(), line)?,
            "{line:?}"
        );
    }
    Ok(())
}
