//! A platform's plan, of a board's tables.
ghost use Rattle.std.specs.Prelude.{◌≡◌, ◌≢◌, ◌↔◌, ◌⊎◌, ◌<◌, ◌≤◌, ◌+◌, IfOk, IfErr, Ok, Err, false};
ghost use Rattle.scmi_plan.specs.Plan.{IsValid};
ghost use Rattle.scmi_c.specs.Tables.{board_of_tables, is_well_formed, tables_of, IsTableFault};
ghost use Rattle.scmi_c.specs.declared.code.TheConstants.{MEMORY, TABLE};

use crate::board::rule_code;
use crate::code::TABLE;
use crate::table_lines::set_lines;
use crate::tabled::checked_plan;
use crate::tables::{Tables, is_well_formed};
use scmi_plan::Plan;
use std::alloc::Global;

/// The plan of a board's tables with all that its rows say, or the number of its fault for C:
/// `TABLE` if the tables are not well formed, else `RULE` and the number of the first rule that the
/// board breaks, or `MEMORY` when out of memory. Its parts are no locals of the caller's, which
/// then makes the platform.
#[inline(never)]
pub fn plan_of_tables(alloc: Global, tables: &Tables<'_>) -> Result<Plan, u32>
    ensures board { IfOk result (λ plan. board_of_tables (tables_of tables.now) ≡ Ok plan) }
    ensures fault { IfErr result (λ n. n ≢ MEMORY
        → board_of_tables (tables_of tables.now) ≡ Err n) }
    ensures table { (result ≡ Err TABLE) ↔ (is_well_formed (tables_of tables.now) ≡ false) }
    ensures valid { IfOk result IsValid }
    ensures faults { IfErr result IsTableFault }
{
    if !is_well_formed(tables) {
        return Err(TABLE);
    }
    let mut plan = match checked_plan(alloc, tables) {
        Ok(plan) => plan,
        Err(error) => return Err(rule_code(error)),
    };
    set_lines(&mut plan, tables);
    let _agents = plan.agents();
    Ok(plan)
}
