//! Whether the lists of the design hold what was built.

use crate::trees::{is_assignment, is_scaled, is_source, is_wait};
use ams_value::{Val, ValueType};
use fix_core::Fix;
use flat_design::{
    Enumeration, Equation, Flat, Instance, Name, Node, PathStep, Process, Quantity, QuantityKind,
    Ramp, Signal, Terminal, Threshold, Variable, WaitPlace,
};
use flat_expr::{Constraint, SignalName, Unknown};
use std::process::Abort;

const FIRST: Terminal = Terminal::Node(0);

const SECOND: Terminal = Terminal::Node(1);

const GROUND: Terminal = Terminal::Reference;

fn is_named(name: &Name, text: &str) -> bool {
    name.as_slice() == text.as_bytes()
}

fn is_signal(signal: &Signal, path: &str, initial: i64) -> bool {
    is_named(&signal.path, path)
        && signal.kind == ValueType::Real
        && signal.constraint == Constraint::Whole
        && signal.initial == Val::Real(Fix::exactly(initial as i128))
}

fn are_signals(signals: &[Signal]) -> bool {
    match signals {
        [level, other] => {
            is_signal(level, "rc.level", 5_000_000_000_000) && is_signal(other, "rc.other", 0)
        }
        _ => false,
    }
}

fn is_quantity(quantity: &Quantity, path: &str, kind: QuantityKind) -> bool {
    is_named(&quantity.path, path) && quantity.kind == kind && quantity.initial == Fix::exactly(0)
}

fn are_quantities(quantities: &[Quantity]) -> bool {
    match quantities {
        [v, i, vr, ir, vc, ic] => {
            is_quantity(v, "rc.v", QuantityKind::Across(FIRST, GROUND))
                && is_quantity(i, "rc.i", QuantityKind::Through(FIRST, GROUND))
                && is_quantity(vr, "rc.vr", QuantityKind::Across(FIRST, SECOND))
                && is_quantity(ir, "rc.ir", QuantityKind::Through(FIRST, SECOND))
                && is_quantity(vc, "rc.vc", QuantityKind::Across(SECOND, GROUND))
                && is_quantity(ic, "rc.ic", QuantityKind::Through(SECOND, GROUND))
        }
        _ => false,
    }
}

fn are_nodes(nodes: &[Node]) -> bool {
    match nodes {
        [first, second] => is_named(&first.path, "rc.n1") && is_named(&second.path, "rc.n2"),
        _ => false,
    }
}

fn are_equations(equations: &[Equation]) -> bool {
    match equations {
        [source, resistor, capacitor] => {
            is_source(source)
                && is_scaled(resistor, 2, 1_000_000_000_000_000, Unknown::Quantity(3))
                && is_scaled(capacitor, 5, 1_000_000, Unknown::Dot(0))
        }
        _ => false,
    }
}

fn are_thresholds(thresholds: &[Threshold]) -> bool {
    match thresholds {
        [threshold] => {
            threshold.quantity == 4 && threshold.level == Fix::exactly(2_500_000_000_000)
        }
        _ => false,
    }
}

fn are_variables(variables: &[Variable]) -> bool {
    match variables {
        [held] => {
            is_named(&held.name, "held")
                && held.kind == ValueType::Real
                && held.constraint
                    == Constraint::Real(Fix::exactly(0), Fix::exactly(9_000_000_000_000))
                && held.initial == Val::Real(Fix::exactly(2_000_000_000_000))
                && !held.is_parameter
        }
        _ => false,
    }
}

fn are_waits(waits: &[WaitPlace]) -> bool {
    let step = PathStep {
        statement: 1,
        branch: 0,
    };
    match waits {
        [wait] => wait.path.as_slice() == [step].as_slice() && wait.parameters.is_empty(),
        _ => false,
    }
}

fn is_process(process: &Process) -> bool {
    match process.statements.as_slice() {
        [assignment, wait] => {
            are_variables(process.variables.as_slice())
                && is_assignment(assignment)
                && is_wait(wait)
                && process.drivers.as_slice() == [1].as_slice()
                && are_waits(process.waits.as_slice())
        }
        _ => false,
    }
}

fn are_processes(processes: &[Process]) -> bool {
    match processes {
        [process] => is_process(process),
        _ => false,
    }
}

fn are_instances(instances: &[Instance]) -> bool {
    match instances {
        [rc] => is_named(&rc.path, "rc") && rc.equations == 3 && rc.unknowns == 3,
        _ => false,
    }
}

fn is_domain(literals: &[Name]) -> bool {
    match literals {
        [quiescent, time] => {
            is_named(quiescent, "quiescent_domain") && is_named(time, "time_domain")
        }
        _ => false,
    }
}

fn are_enumerations(enumerations: &[Enumeration]) -> bool {
    match enumerations {
        [domain] => is_domain(domain.literals.as_slice()),
        _ => false,
    }
}

fn are_ramps(ramps: &[Ramp]) -> bool {
    match ramps {
        [ramp] => {
            ramp.signal == 1
                && ramp.rise == Fix::exactly(1_000_000)
                && ramp.fall == Fix::exactly(2_000_000)
                && ramp.first == 2
                && ramp.quantity == 6
        }
        _ => false,
    }
}

fn has_its_quantities(flat: &Flat) -> bool {
    are_quantities(flat.quantities())
        && are_nodes(flat.nodes())
        && are_equations(flat.equations())
        && flat.dots() == [4].as_slice()
        && are_thresholds(flat.thresholds())
}

fn has_its_signals(flat: &Flat) -> bool {
    are_signals(flat.signals())
        && are_processes(flat.processes())
        && flat.frame() == [SignalName::Signal(0)].as_slice()
}

fn has_its_instances(flat: &Flat) -> bool {
    are_instances(flat.instances())
        && are_enumerations(flat.enumerations())
        && are_ramps(flat.ramps())
}

/// Stops the test where a list is not as it was built.
pub fn lists_are_those_that_were_built(rt: &impl Abort, flat: &Flat) {
    assert!(rt; has_its_quantities(flat));
    assert!(rt; has_its_signals(flat));
    assert!(rt; has_its_instances(flat));
}
