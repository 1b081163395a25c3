// What a port tells of the constraints of derivations.
ghost use Rattle.std.specs.Prelude.{All, IsTrue};
ghost use Rattle.beas_core.specs.Derivations.{is_live};
ghost use Rattle.plan_ops.specs.Held.{PlanHolds, StepHolds};

use beas_core::{AccessPort, DStep, Derivation};

// Recalls that the constraint of a step holds over the port's rows. A caller knows it only by the clause of a call on the
// port, so this call is there for its clause and changes nothing.
fn recall_constraint<P: AccessPort>(port: &P, step: &DStep)
    requires { IsTrue (is_live (P.accesses port.now) step.now.access) }
    ensures { StepHolds (P.rows port.now) (P.accesses port.now) step.now }
{
    let _access = port.access(step.access);
}

fn ask_for_steps<P: AccessPort>(port: &P, steps: &[DStep])
    requires { All (λ s. IsTrue (is_live (P.accesses port.now) s.access)) steps.now }
    ensures { All (StepHolds (P.rows port.now) (P.accesses port.now)) steps.now }
{
    for step in steps {
        recall_constraint(port, step);
    }
}

/// Asks for the constraint of each step, and so learns that it holds, which bounds what the steps find.
pub fn ask_for_all<P: AccessPort>(port: &P, derivations: &[Derivation])
    requires { All (λ plan. All (λ s. IsTrue (is_live (P.accesses port.now) s.access)) plan.steps) derivations.now }
    ensures { All (PlanHolds (P.rows port.now) (P.accesses port.now)) derivations.now }
{
    for derivation in derivations {
        ask_for_steps(port, derivation.steps.as_slice());
    }
}
