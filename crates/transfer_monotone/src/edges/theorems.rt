//! The steps of a program, and the rules that they may violate, grow with the row, over any domain of integers whose operations
//! do. Rows are own ones, and the pointer parts of the smaller row are consistent.
ghost use Rattle.std.specs.Prelude.{ℤ, List, length};
ghost use Rattle.cc_base.specs.IntegerLaws.{MonotoneLaws};
ghost use Rattle.cc_base.specs.Machine.{IsMonotone};
ghost use Rattle.cfg.specs.declared.programs.Flow.{Flow};
ghost use Rattle.pointer_domain.specs.declared.base_sets.Bases.{Bases};
ghost use Rattle.value_domain.specs.Values.Cells.{cell_lattice};
ghost use Rattle.transfer_system.specs.BoundedRows.OwnRows.{program_bases};
ghost use Rattle.transfer_system.specs.System.FlowMachines.{flow_machine};
ghost use Rattle.transfer_monotone.specs.Values.LaidOut.{IsLaidOut};
ghost use Rattle.transfer_monotone.specs.Edges.MemoryLaws.{MemoryStepsRise, MemoryChecksRise};
ghost use Rattle.transfer_monotone.specs.Edges.ProgramLaws.{IsNamed, AreRising, StepsRise};
ghost use Rattle.transfer_system.specs.BoundedRows.NearLists.{IsNearList};

use cc_base::IntDomain;
use transfer_system::bounded_rows::Bounded;

/// A load or a store in a larger row leaves a larger row, an own one, and one of consistent pointer parts, and may violate
/// each rule that it may violate in a smaller one. A copy of a struct may so too.
pub fn steps_in_memory_are_monotone<I: IntDomain>()
    ensures steps { MonotoneLaws I.lattice I.numbers → (all : Bases) (flow : Flow) → IsLaidOut all flow → MemoryStepsRise I.lattice I.numbers all flow }
    ensures checks { MonotoneLaws I.lattice I.numbers → (all : Bases) (flow : Flow) → IsLaidOut all flow → MemoryChecksRise I.lattice I.numbers all flow }
{}

/// Each instruction and each edge of a program takes a larger row to a larger one, an own one of consistent pointer parts, and
/// an instruction may violate in a larger row what it may violate in a smaller one, where the program's library calls and
/// copies of structs do so.
pub fn edges_and_instructions_are_monotone<I: IntDomain>()
    ensures { MonotoneLaws I.lattice I.numbers → (all : Bases) (flow : Flow) → IsLaidOut all flow → IsNamed flow → AreRising I.lattice I.numbers all flow → StepsRise I.lattice I.numbers all flow }
{}

/// The system of such a program is monotone, where rows are cut between the ends of a list that goes from a number not below
/// -2^64 up to 2^64: so a solver's map is the least inductive one.
pub fn systems_are_monotone<I: Bounded>()
    ensures { MonotoneLaws I.lattice I.numbers → (flow : Flow) (list : List ℤ) → IsNearList I.lattice I.numbers list → IsLaidOut (program_bases (length flow.bases.items)) flow → IsNamed flow → AreRising I.lattice I.numbers (program_bases (length flow.bases.items)) flow → IsMonotone (cell_lattice I.lattice) (flow_machine I.lattice I.numbers flow list) }
{}
