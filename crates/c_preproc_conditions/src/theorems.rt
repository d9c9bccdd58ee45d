//! An expression has one value.
ghost use Rattle.std.specs.Prelude.{◌≡◌, List};
ghost use Rattle.c_preproc_conditions.specs.declared.condition_symbols.Symbol.{Symbol};
ghost use Rattle.c_preproc_conditions.specs.declared.condition_value.Value.{Value};
ghost use Rattle.c_preproc_conditions.specs.Expressions.{IsExpression};

/// The tokens of a condition are an expression with one value at most.
pub fn one_value()
    ensures { (ts : List Symbol) (v w : Value) → IsExpression ts v → IsExpression ts w → v ≡ w }
{}
