// Outs as a body makes them, before their lists are known to be short.
ghost use Rattle.std.specs.Prelude.{◌≡◌, ◌≤◌, length};
ghost use Rattle.lucid_core.specs.Fits.{carried};
ghost use Rattle.lucid_core_run.specs.Running.{out_of};
ghost use Rattle.lucid_core.specs.Values.{numbers as numbers_of};

use lucid_base::{Args, Bits, Event, Items, Out, Target};

/// An out as a body makes it, with any number of arguments. In a valid core they are at most 8.
#[derive(Drop)]
pub enum Draft {
    Gen {
        event: u32,
        args: Items<Bits>,
        delay: u64,
        to: Target,
    },
    Say {
        form: u32,
        args: Items<Bits>,
    },
}

impl Draft {
    /// Returns the out, as a copy.
    pub fn out(&self) -> Out
        requires { length (carried (out_of self.now)) ≤ 8 }
        ensures { result ≡ out_of self.now }
    {
        match self {
            Draft::Gen {
                event,
                args,
                delay,
                to,
            } => {
                let event = Event {
                    id: *event,
                    args: numbers(args.as_slice()),
                };
                Out::Gen {
                    event,
                    delay: *delay,
                    to: *to,
                }
            }
            Draft::Say { form, args } => Out::Say {
                form: *form,
                args: numbers(args.as_slice()),
            },
        }
    }
}

/// The numbers alone.
fn numbers(values: &[Bits]) -> Args
    requires { length values.now ≤ 8 }
    ensures { result ≡ numbers_of values.now }
{
    let mut args = Args::new();
    for value in values {
        args.push(value.value);
    }
    args
}
