ghost use Rattle.std.specs.Prelude.{IsTrue, nat_lt};
ghost use Rattle.std.specs.List.{AllByRecursion, list_all};
ghost use Rattle.mn_page.specs.Grammar.{IsKey, IsValue};
ghost use Rattle.mn_work.specs.Works.{HasRightSteps};
ghost use Rattle.mn_tree.specs.MoveLaws.{IsStep};

use mn_base::{Key, Op, Step, Value};

/// Each element of a slice of bytes is one. It does nothing.
fn are_bytes(bytes: &[u8])
    ensures { IsTrue (list_all (λ b. nat_lt b 256) bytes.now) }
{
    for _ in bytes {}
}

/// A key is one of a page. It does nothing.
fn is_key(key: &Key)
    ensures { IsKey key.now }
{
    are_bytes(key.as_slice());
}

/// A value is one of a page. It does nothing.
fn is_value(value: &Value)
    ensures { IsValue value.now }
{
    are_bytes(value.as_slice());
}

/// A step names such a key and value. It does nothing.
fn is_step(step: &Step)
    ensures { IsStep step.now }
{
    match step {
        Step::Get { key } | Step::Del { key } | Step::Check { key, .. } => is_key(key),
        Step::Put { key, value } => {
            is_key(key);
            is_value(value);
        }
    }
}

/// So does each of these steps. It does nothing.
fn are_steps(steps: &[Step])
    ensures { AllByRecursion IsStep steps.now }
{
    for step in steps {
        is_step(step);
    }
}

/// A transaction has 1 to 16 such steps. It does nothing.
pub fn has_right_steps(op: &Op)
    ensures { HasRightSteps op.now }
{
    match op {
        Op::Tx { steps, .. } => are_steps(steps.as_slice()),
        Op::Snapshot { .. } | Op::Branch { .. } | Op::Scan { .. } | Op::Versions => {}
    }
}
