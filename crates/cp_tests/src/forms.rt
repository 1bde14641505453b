// Which of two faults is answered.
use cp_base::{Code, Place, Refusal};
use cp_scope::FirstFault;

fn at(line: u32, col: u32, code: Code) -> Refusal {
    Refusal {
        place: Place { line, col },
        code,
    }
}

// By line, then by column, then by kind.
#[test]
fn first_faults(rt: HostRuntime) {
    let held = at(2, 5, Code::OutOfProfile);
    for (other, first) in [
        (at(2, 5, Code::UnknownVar), held),
        (at(2, 6, Code::UnknownForm), held),
        (at(1, 9, Code::UnknownVar), at(1, 9, Code::UnknownVar)),
    ] {
        let mut found = FirstFault::new();
        found.note(held.place, held.code);
        assert!(rt; found.first_with(other) == first);
    }
}
