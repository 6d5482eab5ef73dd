// The scripts of a day: a few, each made anew from its number, so that the same one stands at several items and desks.
ghost use Rattle.random_days.specs.Drawn.{line_count};
ghost use Rattle.random_days.specs.Pooled.{DrawnLine, DrawnLines};
ghost use Rattle.random_days.specs.Seeds.{chosen};
ghost use Rattle.script.specs.Allowed.{ScriptAllowed, sources_in};
ghost use Rattle.script.specs.Layout.{max_lines, script_size};
ghost use Rattle.std.specs.Prelude.{◌≡◌, ◌*◌, ◌<◌, ◌≤◌, length, drop};

use super::seed::Seed;
use rows::put_all;
use script::{LINE_SIZE, Line};

// Few registers, so that the lines of a script meet.
const USED_REGISTERS: u64 = 3;

// Lines of the longest scripts.
const MANY_LINES: u64 = 32;

#[derive(Clone, Copy)]
pub struct Pool {
    pub seed: Seed,
    pub scripts: u64,
}

impl Pool {
    // The number of a script for the item: most times one that asks by number only for items before it.
    #[tactic(auto, unfolding(crate::specs::Seeds::chosen))]
    pub fn choose(self, seed: Seed, item: u64) -> u64
        ensures value { result ≡ chosen self.scripts seed.number item }
        ensures below { 0 < self.scripts → result < self.scripts }
    {
        let fitting = item.saturating_sub(1) / 2;
        if seed.at(0).percent(20) {
            seed.at(1).below(self.scripts)
        } else {
            seed.at(1)
                .below(self.scripts.min(fitting.saturating_add(1)))
        }
    }

    // Writes script `number` into a row; it asks by number only for items up to twice its own.
    pub fn write_script(self, number: u64, row: &mut [u64])
        ensures count { line_count row.new ≤ max_lines }
        ensures behind { drop script_size row.new ≡ drop script_size row.old }
        ensures lines { script_size ≤ length row.old → DrawnLines (2 * number) row.new }
        ensures allowed { script_size ≤ length row.old → ScriptAllowed (sources_in row.new) }
    {
        let seed = self.seed.at(number);
        let count = draw_count(seed);
        put_all(row, 0, &[count]);
        // By its number, which each line is drawn by, and of which the last is another.
        for index in 0..count {
            let line = if index.saturating_add(1) == count {
                Line::Give {
                    register: seed.at(1).below(USED_REGISTERS),
                }
            } else {
                draw_line(seed.at(2).at(index), number.saturating_mul(2))
            };
            let at = LINE_SIZE.saturating_mul(index as usize).saturating_add(1);
            line.write(row, at);
        }
    }
}

fn draw_count(seed: Seed) -> u64
    ensures { result ≤ max_lines }
{
    match seed.at(3).below(24) {
        0 => 0,
        1 => MANY_LINES,
        _ => seed.at(4).between(2, 8),
    }
}

fn draw_line(seed: Seed, last: u64) -> Line
    ensures { DrawnLine last result }
{
    let register = seed.at(0).below(USED_REGISTERS);
    let left = seed.at(1).below(USED_REGISTERS);
    let right = seed.at(2).below(USED_REGISTERS);
    let number = seed.at(3).between(0, last);
    match seed.at(4).below(20) {
        0..=7 => Line::Ask {
            register,
            item: number,
        },
        8..=9 => Line::AskAt { register, at: left },
        10..=12 => Line::Number { register, number },
        13..=15 => Line::Sum {
            register,
            left,
            right,
        },
        16..=18 => Line::Unless {
            left,
            right,
            skip: seed.at(5).below(5),
        },
        _ => Line::Give { register },
    }
}
