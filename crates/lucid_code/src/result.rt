// The result of an act for the field that it writes.
ghost use Rattle.std.specs.Prelude.{◌≡◌, List, ℕ};
ghost use Rattle.lucid_base.specs.Bool.{bit_of};
ghost use Rattle.lucid_base.specs.Hash.{fnv_1a, bytes_of};
ghost use Rattle.lucid_base.specs.Ops.{un_of, bin_of, cmp_of, low_of};
ghost use Rattle.lucid_base.specs.declared.event.Out.{Out};
ghost use Rattle.lucid_code.specs.Run as run;

use crate::{Act, Operand};
use lucid_base::{
    BinOp, Bits, Cells, CmpOp, UnOp, Width, apply_bin, apply_un, compare, hash_start, hash_word,
};

impl Act {
    /// Returns the result for the written field, from the values of the fields and the cells of the arrays; a field past the last holds 0.
    /// Earlier outs do not matter.
    pub fn result(&self, fields: &[u64], cells: &Cells) -> u64
        ensures { (outs : List (ℕ × Out)) → result ≡ run.result self.now (record { fields = fields.now; cells = cells.now; outs = outs }) }
    {
        match self {
            Act::Un(op, w, a, _) => un(*op, *w, value(fields, *a)),
            Act::Bin(op, w, a, b, _) => bin(*op, *w, value(fields, *a), value(fields, *b)),
            Act::Cmp(op, w, a, b, _) => cmp(*op, *w, value(fields, *a), value(fields, *b)),
            Act::Cast(a, _) => value(fields, *a),
            Act::Hash(xs, _) => hash(fields, xs.as_slice()),
            Act::Move(a, _) => value(fields, *a),
            Act::Touch {
                array,
                index,
                get,
                get_arg,
                ..
            } => {
                let stored = cells.get(*array, value(fields, *index));
                get.apply_low(stored, value(fields, *get_arg)).value
            }
            Act::Gen { .. } => 0,
            Act::Say { .. } => 0,
        }
    }
}

fn value(fields: &[u64], operand: Operand) -> u64
    ensures { result ≡ run.value fields.now operand }
{
    match operand {
        Operand::Fixed(v) => v,
        Operand::Field(k) => match fields.get(k as usize) {
            None => 0,
            Some(v) => *v,
        },
    }
}

fn un(op: UnOp, w: Width, a: u64) -> u64
    ensures { result ≡ un_of op w (low_of w a) }
{
    apply_un(op, Bits::low(w, a)).value
}

fn bin(op: BinOp, w: Width, a: u64, b: u64) -> u64
    ensures { result ≡ bin_of op w (low_of w a) (low_of w b) }
{
    apply_bin(op, Bits::low(w, a), Bits::low(w, b)).value
}

fn cmp(op: CmpOp, w: Width, a: u64, b: u64) -> u64
    ensures { result ≡ bit_of (cmp_of op (low_of w a) (low_of w b)) }
{
    Bits::from_bool(compare(op, Bits::low(w, a), Bits::low(w, b))).value
}

/// Returns the hash of the operands' values.
fn hash(fields: &[u64], xs: &[Operand]) -> u64
    ensures { result ≡ fnv_1a (bytes_of (run.values fields.now xs.now)) }
{
    let mut hash = hash_start();
    for x in xs {
        hash = hash_word(hash, value(fields, *x));
    }
    hash
}
