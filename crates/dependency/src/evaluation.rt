// The evaluation of a dependency expression against the installed firmware.
ghost use Rattle.std.specs.Prelude.{[], ◌≡◌, ◌<◌, ◌≤◌, length};
ghost use Rattle.std.proofs.Math.Option.{none};
ghost use Rattle.dependency.specs.Expression.{reading};
ghost use Rattle.dependency.specs.Evaluation.{evaluated_answer, evaluate_of, outcome};
ghost use Rattle.dependency.specs.Installed.{first_with};
ghost use Rattle.dependency.specs.Stack.{Given};
ghost use Rattle.dependency.specs.Opcodes.{code_of};
ghost use Rattle.dependency.specs.Validation.{fault_from};

use crate::installed::Installed;
use crate::opcodes::{Opcode, read_opcode};
use crate::validation::validate;
use common::Refusal;

const ROWS: usize = 16;

// The values on the stack, and how many they are. The kinds are not kept: a version is itself, and a truth is 0 or another number.
// An array with a depth, since the project uses no heap.
#[derive(Drop)]
struct Values {
    values: [u32; 32],
    depth: usize,
    ghost within: { depth ≤ 32 },
}

// Whether an expression holds of the installed firmware: the first `used` rows of the table, with the versions beside them; of a GUID
// that stands there twice the first row counts. Refused with 2 (a used number over sixteen), 301 to 305 as by `validate`, 14 (a
// GUID of the expression is in no used row). One pass for the test and one for the values. The table comes as document 01 has it: sixteen
// byte arrays by value, with the used number beside them.
#[tactic(auto, using(crate::proofs::evaluation::Runs::evaluate_used, crate::proofs::evaluation::Runs::evaluate_err, crate::proofs::evaluation::Runs::evaluate_run, crate::proofs::evaluation::Runs::valid_none), unfolding(crate::specs::Installed::installed_in))]
pub fn evaluate(
    expression: &[u8],
    rows: [[u8; 16]; 16],
    versions: [u32; 16],
    used: usize,
) -> Result<bool, Refusal>
    ensures { evaluated_answer result ≡ evaluate_of rows versions used expression.now }
{
    if used > ROWS {
        return Err(Refusal::InvalidParameter);
    }
    validate(expression)?;
    let installed = Installed {
        rows: &rows[..used],
        versions: &versions,
    };
    run(expression, &installed)
}

// The evaluation of an expression that passed the test. So no opcode takes more than there is, takes another kind than it asks for,
// or leaves more than fits, and neither the stack's depth nor its kinds are tested again. The reader cannot refuse here, and there
// is an end. The walk over the opcodes stands here and in `validate`: an iterator would be a struct and an impl for these lines.
fn run(expression: &[u8], installed: &Installed) -> Result<bool, Refusal>
    requires { fault_from (reading expression.now) [] ≡ none }
    ensures { evaluated_answer result ≡ outcome (first_with installed.now.rows.now installed.now.versions.now) (reading expression.now) [] }
{
    let mut values = Values {
        values: [0; 32],
        depth: 0,
    };
    let mut rest = expression;
    // No `for`: each turn goes on by the opcode's own width.
    loop {
        let read = read_opcode(rest)?;
        if read.opcode == Opcode::End {
            return Ok(values.pop() != 0);
        }
        let operand = &rest[1..read.after];
        let version = given_version(read.opcode, operand, installed).ok_or(Refusal::NotFound)?;
        values.step(read.opcode, version);
        rest = &rest[read.after..];
    }
}

// The version that an opcode with its operand gives: that of the installed firmware, or the operand itself; 0 where it gives none,
// which no step looks at: `None` is a GUID in no row.
#[tactic(auto, using(crate::proofs::evaluation::Runs::given_guid, crate::proofs::evaluation::Runs::given_number, crate::proofs::evaluation::Runs::given_none))]
fn given_version(opcode: Opcode, operand: &[u8], installed: &Installed) -> Option<u32>
    ensures { Given result (code_of opcode) (first_with installed.now.rows.now installed.now.versions.now) operand.now }
{
    match opcode {
        Opcode::PushGuid => installed.version_of(operand),
        Opcode::PushVersion => Some(numbers::u32_at(operand, 0)),
        _ => Some(0),
    }
}

impl Values {
    ghost use Rattle.std.specs.Prelude.{Bool, ◌∷◌, get_or, drop, cond};
    ghost use Rattle.dependency.specs.Stack.{Fits, Stepped, stack_of};

    // Takes what an opcode takes off the stack and pushes what it leaves. The value taken first, the top, stands on the left.
    #[tactic(auto, using(crate::proofs::evaluation::Steps::stack_length), unfolding(crate::specs::Opcodes::row_of, crate::specs::Opcodes::row_among, crate::specs::Opcodes::opcodes))]
    fn step(&mut self, opcode: Opcode, version: u32)
        requires { Fits (code_of opcode) (length (stack_of self.old.depth self.old.values)) }
        ensures { Stepped (code_of opcode) version (stack_of self.old.depth self.old.values) (stack_of self.new.depth self.new.values) }
    {
        match opcode {
            Opcode::PushGuid | Opcode::PushVersion => self.push(version),
            Opcode::True => self.push(1),
            Opcode::False => self.push(0),
            Opcode::Not => {
                let top = self.pop();
                self.push(u32::from(top == 0));
            }
            Opcode::And => self.join(|left, right| left != 0 && right != 0),
            Opcode::Or => self.join(|left, right| left != 0 || right != 0),
            Opcode::Eq => self.join(|left, right| left == right),
            Opcode::Gt => self.join(|left, right| left > right),
            Opcode::Gte => self.join(|left, right| left >= right),
            Opcode::Lt => self.join(|left, right| left < right),
            Opcode::Lte => self.join(|left, right| left <= right),
            Opcode::VersionStr | Opcode::End => {}
        }
    }

    // Takes two values and pushes the truth that they make, the one taken first on the left.
    #[tactic(auto, using(crate::proofs::evaluation::Steps::stack_length))]
    fn join<F: FnOnce(u32, u32) -> bool>(&mut self, makes: F)
        requires two { 2 ≤ length (stack_of self.old.depth self.old.values) }
        requires callable { F.IsAlwaysCallable makes }
        ensures { (truth : Bool) × F.post makes (get_or (stack_of self.old.depth self.old.values) 0 0) (get_or (stack_of self.old.depth self.old.values) 1 0) truth × (stack_of self.new.depth self.new.values ≡ cond truth 1 0 ∷ drop 2 (stack_of self.old.depth self.old.values)) }
    {
        let left = self.pop();
        let right = self.pop();
        self.push(u32::from(makes(left, right)));
    }

    #[tactic(auto, using(crate::proofs::evaluation::Steps::stack_length, crate::proofs::evaluation::Steps::stack_push))]
    fn push(&mut self, value: u32)
        requires { length (stack_of self.old.depth self.old.values) < 32 }
        ensures { stack_of self.new.depth self.new.values ≡ value ∷ stack_of self.old.depth self.old.values }
    {
        self.values[self.depth] = value;
        self.depth += 1;
    }

    #[tactic(auto, using(crate::proofs::evaluation::Steps::stack_length, crate::proofs::evaluation::Steps::stack_pop))]
    fn pop(&mut self) -> u32
        requires { 1 ≤ length (stack_of self.old.depth self.old.values) }
        ensures { stack_of self.old.depth self.old.values ≡ result ∷ stack_of self.new.depth self.new.values }
    {
        self.depth -= 1;
        self.values[self.depth]
    }
}
