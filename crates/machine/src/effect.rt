// What one line of a script does, and how it does it.
ghost use Rattle.std.specs.Prelude.{◌≡◌, ◌^◌, ◌<◌, length, slice_index_or};
ghost use Rattle.machine.specs.Machine.{answered, asking, rest, resumed, work};
ghost use Rattle.script.specs.Rule.{Script};

use super::registers::Registers;
use script::Line;

// A script that waits for an item's value, which belongs into the register.
#[derive(Clone, Copy)]
pub struct Waiting {
    register: u64,
    registers: Registers,
}

impl Waiting {
    // The registers with the answer, as the script goes on.
    pub fn answer(self, value: u64) -> Registers
        ensures { result ≡ answered self value }
    {
        self.registers.set(self.register, value)
    }
}

#[derive(Clone, Copy)]
pub enum Effect {
    // The script goes on by itself.
    Goes(Registers),
    Asks { item: u64, waiting: Waiting },
    Gives(u64),
}

impl Registers {
    // Does one line's work; the registers then stand at the line that comes after it.
    pub fn execute(self, line: Line) -> Effect
        ensures value { result ≡ work self line }
        ensures step { (s : Script) → length s < 2 ^ 64 → self.next < length s → slice_index_or s self.next line ≡ line → rest s self ≡ resumed s result }
    {
        effect_of(self, line)
    }
}

fn asks(item: u64, register: u64, registers: Registers) -> Effect
    ensures { result ≡ asking item register registers }
{
    Effect::Asks {
        item,
        waiting: Waiting {
            register,
            registers,
        },
    }
}

fn effect_of(registers: Registers, line: Line) -> Effect
    ensures { result ≡ work registers line }
{
    let after = registers.advance(1);
    match line {
        Line::Ask { register, item } => asks(item, register, after),
        Line::AskAt { register, at } => asks(registers.get(at), register, after),
        Line::Number { register, number } => Effect::Goes(after.set(register, number)),
        Line::Sum {
            register,
            left,
            right,
        } => {
            let sum = registers.get(left).wrapping_add(registers.get(right));
            Effect::Goes(after.set(register, sum))
        }
        Line::Unless { left, right, skip } => {
            let skipped = if registers.get(left) == registers.get(right) {
                skip
            } else {
                0
            };
            Effect::Goes(after.advance(skipped))
        }
        Line::Give { register } => Effect::Gives(registers.get(register)),
    }
}
