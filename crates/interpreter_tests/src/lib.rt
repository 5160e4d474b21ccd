// Passes over small programs, on both stores.
#![tactic(auto)]

#[cfg(test)]
mod tests {
    use flow::{FlowMasks, Inflow, PermitFlow, VariableFlow};
    use interpreter::{Ending, Memory};
    use program::{Instruction, Program, Sign};
    use store::{DenseStore, SparseStore, Store};

    fn set(target: u8, value: i32) -> Instruction {
        Instruction::Set { target, value }
    }

    fn combine(sign: Sign, target: u8, left: u8, right: u8) -> Instruction {
        Instruction::Combine {
            sign,
            target,
            left,
            right,
        }
    }

    fn release(target: u8, source: u8, permit: u8) -> Instruction {
        Instruction::Release {
            target,
            source,
            permit,
        }
    }

    fn repeat(variable: u8, way: u8) -> Instruction {
        Instruction::Loop { variable, way }
    }

    fn again(variable: u8, way: u8) -> Instruction {
        Instruction::Again { variable, way }
    }

    fn program(lines: &[Instruction]) -> Program {
        let mut instructions = [Instruction::End; 256];
        for (place, line) in instructions.iter_mut().zip(lines) {
            *place = *line;
        }
        Program {
            count: lines.len().min(256),
            instructions,
        }
    }

    // Condition 0 wipes variable 5, and permit 0 asks for conditions 1 and 3.
    fn masks() -> FlowMasks {
        let inflow = Inflow {
            variables: 0,
            conditions: 0,
        };
        let permit = PermitFlow {
            conditions: 0b1010,
            sources: 0,
            targets: 0,
        };
        let mut variable = [VariableFlow { inflow, wipers: 0 }; 64];
        variable[5].wipers = 1;
        FlowMasks {
            conditions: 16,
            variables: 64,
            permits: 8,
            variable,
            condition: [inflow; 16],
            lowest: inflow,
            permit: [permit; 8],
        }
    }

    // v0 = 3; while v0 { v1 = 2; while v1 { v2 = v2 + v3; v1 = v1 - v3 }; v0 = v0 - v3 }, with v3 = 1.
    fn loop_in_loop() -> Program {
        program(&[
            set(3, 1),
            set(0, 3),
            repeat(0, 7),
            set(1, 2),
            repeat(1, 3),
            combine(Sign::Plus, 2, 2, 3),
            combine(Sign::Minus, 1, 1, 3),
            again(1, 3),
            combine(Sign::Minus, 0, 0, 3),
            again(0, 7),
        ])
    }

    #[test]
    fn loops_inside_loops_count_every_turn(rt: HostRuntime) {
        let mut memory = Memory {
            store: DenseStore::new(),
            up: 0,
        };
        let ending = memory.pass(&masks(), &loop_in_loop(), 9);
        assert_eq!(rt; ending, Ending::Done { used: 9 });
        assert_eq!(rt; memory.store.get(2), 6);
    }

    #[test]
    fn spent_in_the_inner_loop(rt: HostRuntime) {
        let mut memory = Memory {
            store: SparseStore::new(),
            up: 0,
        };
        let ending = memory.pass(&masks(), &loop_in_loop(), 5);
        assert_eq!(rt; ending, Ending::Spent { used: 5 });
        assert_eq!(rt; memory.store.get(0), 2);
        assert_eq!(rt; memory.store.get(1), 1);
        assert_eq!(rt; memory.store.get(2), 3);
    }

    #[test]
    fn a_raise_wipes_the_variable_of_its_loop(rt: HostRuntime) {
        let looping = program(&[
            set(5, 7),
            repeat(5, 3),
            Instruction::Raise { condition: 0 },
            set(5, 8),
            again(5, 3),
        ]);
        let mut memory = Memory {
            store: SparseStore::new(),
            up: 2,
        };
        let ending = memory.pass(&masks(), &looping, 100);
        assert_eq!(rt; ending, Ending::Done { used: 1 });
        assert_eq!(rt; memory.store.get(5), 0);
        assert_eq!(rt; memory.up, 3);
    }

    #[test]
    fn a_release_asks_for_all_its_conditions(rt: HostRuntime) {
        let releasing = program(&[
            set(0, 9),
            release(1, 0, 0),
            Instruction::Raise { condition: 3 },
            release(2, 0, 0),
        ]);
        let mut memory = Memory {
            store: DenseStore::new(),
            up: 2,
        };
        memory.pass(&masks(), &releasing, 0);
        assert_eq!(rt; memory.store.get(1), 0);
        assert_eq!(rt; memory.store.get(2), 9);
    }

    #[test]
    fn blocks_are_chosen_by_variables_and_conditions(rt: HostRuntime) {
        let choosing = program(&[
            Instruction::IfVariable {
                variable: 0,
                way: 2,
            },
            set(1, 1),
            Instruction::Jump { way: 2 },
            set(1, 2),
            Instruction::End,
            Instruction::IfCondition {
                condition: 1,
                way: 2,
            },
            set(2, 1),
            Instruction::Jump { way: 2 },
            set(2, 2),
            Instruction::End,
        ]);
        let mut memory = Memory {
            store: DenseStore::new(),
            up: 2,
        };
        let ending = memory.pass(&masks(), &choosing, 0);
        assert_eq!(rt; ending, Ending::Done { used: 0 });
        assert_eq!(rt; memory.store.get(1), 2);
        assert_eq!(rt; memory.store.get(2), 1);
    }

    #[test]
    fn writes_and_raises_of_a_caller(rt: HostRuntime) {
        let mut memory = Memory {
            store: SparseStore::new(),
            up: 0,
        };
        memory.write(&masks(), 5, i32::MIN);
        assert_eq!(rt; memory.store.get(5), i32::MIN);
        memory.raise(&masks(), 0);
        assert_eq!(rt; memory.store.get(5), 0);
        memory.write(&masks(), 5, 4);
        assert_eq!(rt; memory.store.get(5), 0);
        memory.raise(&masks(), 16);
        assert_eq!(rt; memory.up, 1);
    }
}
