// How many rounds a crew runs until its processes have agreed.
ghost use Rattle.std.specs.Prelude.{◌≡◌, ℕ, ◌*◌, ◌≤◌, if◌then◌else◌, nat_le};
ghost use Rattle.sets.specs.Sets.{limit};
ghost use Rattle.agreement.specs.Rounds.{CeilLog, rounds_of};

use sets::MAX_PROCESSES;

// How many entries the table has: one for each number of processes, from 0 on. A constant calls no function, hence
// the cast.
const ENTRIES: usize = MAX_PROCESSES as usize + 1;

// The rounds for each number of processes: a table, a form that docs/DECISIONS.md fixes.
const ROUNDS: [u16; ENTRIES] = [
    0, 0, 6, 18, 24, 45, 54, 63, 72, 108, 120, 132, 144, 156, 168, 180, 192,
];

// The rounds that a crew of so many processes runs; 0, and no error, where there is no such crew: it runs none.
pub fn rounds(processes: u8) -> u16
    ensures value { result ≡ (if nat_le processes limit then rounds_of processes else 0) }
    ensures rule { (m : ℕ) → processes ≤ limit → CeilLog processes m → result ≡ 3 * processes * m }
{
    ROUNDS.get(usize::from(processes)).copied().unwrap_or(0)
}
