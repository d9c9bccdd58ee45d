//! Worked examples, proved: runs, wrong definitions that are refuted, and small units through a theorem.
ghost use Rattle.worked_examples.specs.Theorems as spec;

// ---- A unit with a loop that may divide by 0 behind it.

/// Each run of `int main(void){int i;for(i=0;i<b;i++);return 1/i;}` is one of the template of its function, whatever b
/// is, and after any number of turns.
pub fn loop_is_followed()
    ensures { spec.LoopIsFollowed }
{}

// ---- What is supposed of plain units is met by one that accesses memory.

/// `int main(void){int z=0;return 1/z;}` is plain, and there is a program whose run stores and loads as it does, each time the
/// type of what lies there, and then divides by 0. The program is built in the memory of some other one.
pub fn plain_units_may_load_and_store()
    ensures { spec.PlainUnitsMayLoadAndStore }
{}

// ---- What is supposed of programs whose pointers have types is met by one, and by none that loads a number where
// a pointer lies.

/// `int main(void){int x=0;int *p=&x;return 1/ *p;}` has a program whose pointers have types, so that it is a plain unit, and its
/// run divides by 0. The program is built in the memory of some other one.
pub fn divisions_by_pointed_numbers_are_typed()
    ensures { spec.DivisionsByPointedNumbersAreTyped }
{}

/// No program is typed that loads a number through the address of a pointer, as `*(int*)&p` does. In an object that is an `int`,
/// a pointer behind it points to elements, where none stands, and one amid its bytes points to none. Null points to each type.
pub fn other_types_are_excluded()
    ensures misreads { spec.MisreadsAreUntyped }
    ensures ends { spec.EndsPointToNumbers }
    ensures behind { spec.NoNumberStandsBehind }
    ensures parts { spec.PartsPointToNoNumber }
    ensures null { spec.NullPointsToAll }
{}

// ---- What the law on programs that are plain but for their loops supposes can be met, and says something.

/// There is a program with a way back which its run takes once, so that it is such with one turn unrolled, and not with none. The
/// program is built in the memory of some other one, and no unit is lowered to it.
pub fn loops_can_be_unrolled()
    ensures { spec.LoopsCanBeUnrolled }
{}

// ---- A definition of templates that is changed together with the code gives templates whose runs are not those
// of the source.

/// Templates are wrong that leave a call out, whose `continue` skips the step of a `for`, that store a parameter before the
/// last argument is evaluated, whose `goto` leaves no object, that take the `else` where the condition holds, or that evaluate
/// both operands of `&&`: of each there is a unit and a run of it that agrees with no state of the wrong templates' run, but
/// with one of the right templates'.
pub fn wrong_templates_are_refused()
    ensures call { spec.LeftOutCallsAreRefused }
    ensures continued { spec.SkippedStepsAreRefused }
    ensures parameter { spec.EarlyStoresAreRefused }
    ensures goto { spec.KeptObjectsAreRefused }
    ensures selection { spec.TakenElsesAreRefused }
    ensures conjunction { spec.BothOperandsAreRefused }
{}
