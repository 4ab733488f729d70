// Check 4: the home list that a message call is given.
#![tactic(auto)]

ghost use Rattle.std.specs.Prelude.{◌≡◌, map};
ghost use Rattle.gateway_rules.specs.Home.{own_first, good_home};
ghost use Rattle.gateway_home.specs.Rows.{good_rows};

use neighbour::Settings;
use update_writing::LentRow;

// How many rows a home list has at most.
const MOST_ROWS: usize = 128;

// The most that a home row's third number is.
const MOST_THIRD: u32 = 255;

// Whether the first gateway, if there is one, is our own address.
fn is_own_first<R: LentRow>(own: u32, rows: &[R]) -> bool
    ensures { result ≡ own_first own (map R.as_row rows.now) }
{
    match rows {
        [] => true,
        [first, ..] => first.gateway() == own,
    }
}

// Whether these rows are a good home list.
pub fn are_good_rows<R: LentRow>(settings: Settings, rows: &[R]) -> bool
    ensures { result ≡ good_rows settings (map R.as_row rows.now) }
{
    rows.len() <= MOST_ROWS
        && update_writing::are_good_rows(settings.net, MOST_THIRD, rows)
        && is_own_first(settings.own, rows)
}

// Whether these numbers, three a row, are a good home list.
pub fn good_home(settings: Settings, home: &[u32]) -> bool
    ensures { result ≡ good_home settings home.now }
{
    let (rows, rest) = home.as_chunks::<3>();
    rest.is_empty() && are_good_rows(settings, rows)
}
