//! The ids of a board's protocols in a row: an array with zeros behind them.
ghost use Rattle.std.specs.Prelude.{◌≡◌, ◌≤◌, ◌==◌, length};
ghost use Rattle.std.specs.List.{position, position_or_len};
ghost use Rattle.scmi_board.specs.ProtocolRow.{ids_in, row_of};
ghost use Rattle.scmi_plan.specs.declared.limits.TheConstants.{PROTOCOLS};

use scmi_plan::PROTOCOLS;

/// The ids of a row.
pub fn ids_of(row: &[u8; PROTOCOLS]) -> &[u8]
    ensures ids { result.now ≡ ids_in row.now }
    ensures few { length result.now ≤ PROTOCOLS }
{
    &row[..count_of(row)]
}

/// The row of at most 16 ids.
pub fn row_of(ids: &[u8]) -> [u8; PROTOCOLS]
    requires { length ids.now ≤ PROTOCOLS }
    ensures { result ≡ row_of ids.now }
{
    let mut row = [0u8; PROTOCOLS];
    row[..ids.len()].copy_from_slice(ids);
    row
}

fn count_of(row: &[u8]) -> usize
    ensures count { result ≡ position_or_len (λ id. id == 0) row.now }
    ensures within { result ≤ length row.now }
{
    zero_place(row).unwrap_or(row.len())
}

fn zero_place(row: &[u8]) -> Option<usize>
    ensures { result ≡ position (λ id. id == 0) row.now }
{
    row.iter().position(|id| *id == 0)
}
