//! Trees of streams, as a configuration names them: plans, checked plans, and plans whose patterns are built.
#![tactic(auto)]

mod checked;
mod count;
mod fault;
mod kinds;
mod law;
mod limits;
mod plan;
mod ready;
mod search;

pub use checked::{CheckedPlan, check_kinds};
pub use count::stream_pattern_count;
pub use fault::{Path, PlanFault, PlanWhy};
pub use kinds::{MAX_COUNT, MAX_SECS};
pub use law::{paths_lead_to_their_streams, sound_plans_end_outermost, sound_plans_have_no_fault};
pub use limits::limits_are_numbers;
pub use plan::{Kind, Plan, Stream, Streams};
pub use ready::{ReadyPlan, build_plan};
pub use search::{MAX_DEPTH, MAX_STREAMS};
