//! A pool of two rows of three cells.
ghost use Rattle.std.specs.Prelude.{ℕ};
ghost use Rattle.fixpoint.specs.Pool.Pool.{IsTaken};

use fixpoint::pool::RowPool;
use std::test::Fail;

// Whether no row can be taken.
fn is_full(pool: &mut RowPool<u8>) -> bool
    ensures { (s : ℕ) → IsTaken pool.old s → IsTaken pool.new s }
{
    match pool.take() {
        None => true,
        Some(row) => {
            pool.give(row);
            false
        }
    }
}

#[test]
#[tactic(auto, using(fixpoint::specs::Pool::PoolLaws::free_apart))]
fn two_rows(rt: HostRuntime) -> Result<(), Fail> {
    let mut pool = RowPool::new(rt.alloc(), 2, 3, 7u8)?;
    assert_eq!(rt; pool.free_rows(), 2);
    let first = pool.take().expect(&rt, "a first row");
    let second = pool.take().expect(&rt, "a second row");
    assert!(rt; is_full(&mut pool));
    assert_eq!(rt; pool.free_rows(), 0);
    assert_eq!(rt; pool.row(&second), [7, 7, 7].as_slice());
    let row = pool.row_mut(&first);
    row[0] = 1;
    row[2] = 9;
    pool.copy(&first, &second);
    assert_eq!(rt; pool.row(&first), [1, 7, 9].as_slice());
    assert_eq!(rt; pool.row(&second), [1, 7, 9].as_slice());
    pool.give(first);
    assert_eq!(rt; pool.free_rows(), 1);
    assert!(rt; !is_full(&mut pool));
    pool.give(second);
    Ok(())
}
