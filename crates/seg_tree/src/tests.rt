ghost use Rattle.std.specs.Prelude.{◌≡◌, ◌<◌, ◌≤◌, true};
ghost use Rattle.segment.specs.Measure.{AreReadings};

use super::*;
use segment::Nodes;

/// Whether all are readings.
fn are_readings(xs: &[i32]) -> bool
    ensures { result ≡ true → AreReadings xs.now }
{
    for x in xs {
        if x.unsigned_abs() > segment::GREATEST_READING {
            return false;
        }
    }
    true
}

/// 32 readings, 0 and 10 in turn, and a last one.
const READINGS: [i32; 33] = [
    0, 10, 0, 10, 0, 10, 0, 10, 0, 10, 0, 10, 0, 10, 0, 10, 0, 10, 0, 10, 0, 10, 0, 10, 0, 10, 0,
    10, 0, 10, 0, 10, 7,
];

#[test]
fn builds_the_fitted_tree(rt: HostRuntime) -> Result<(), TreeErr> {
    assert!(rt; are_readings(&READINGS[..32]));
    let mut arena = Arena::new(rt.alloc(), 0, 4);
    let empty = arena.build(&[])?;
    assert_eq!(rt; empty, Tree { root: None, n: 0 });
    let tree = arena.build(&READINGS[..32])?;
    assert_eq!(rt;
        tree,
        Tree {
            root: Some(2),
            n: 32
        }
    );
    assert_eq!(rt; arena.build(&READINGS[..32]), Err(TreeErr::ArenaFull));

    let Ok(segs) = arena.segs_of(tree) else {
        return Err(TreeErr::Memory)
    };
    let mut told = segs.iter().map(|s| (s.start, s.len, s.a, s.l));
    assert_eq!(rt; told.next(), Some((0, 32, 81920, 2621440)));
    assert_eq!(rt; told.next(), Some((0, 16, 81920, 1310720)));
    assert_eq!(rt; told.next(), Some((16, 16, 81920, 1310720)));
    assert_eq!(rt; told.next(), None);

    let Ok(xs) = arena.readings_of(tree) else {
        return Err(TreeErr::Memory)
    };
    assert_eq!(rt; xs.as_slice(), &READINGS[..32]);
    Ok(())
}

#[test]
fn hands_out_the_nodes(rt: HostRuntime) -> Result<(), TreeErr> {
    assert!(rt; are_readings(&READINGS));
    let mut arena = Arena::new(rt.alloc(), 0, 64);
    let tree = arena.build(&READINGS)?;
    let trees = [tree];
    let mut nodes = ArenaNodes::new(&arena, &trees);
    assert_eq!(rt; (nodes.count(), nodes.readings_len(0)), (1, 33));

    let Ok(Some((root, seg))) = nodes.root(&mut (), 0) else {
        return Err(TreeErr::Memory)
    };
    assert_eq!(rt; (root, seg.start, seg.len, seg.d), (4, 0, 33, 10));
    let Ok(children) = nodes.children(&mut (), root) else {
        return Err(TreeErr::Memory)
    };
    assert_eq!(rt; (children.left_seg.start, children.left_seg.len), (0, 32));
    assert_eq!(rt; (children.right_seg.start, children.right_seg.len), (32, 1));

    let mut small = Arena::new(rt.alloc(), 0, 1);
    let trees = [small.build(&[7])?];
    let mut nodes = ArenaNodes::new(&small, &trees);
    assert_eq!(rt; nodes.readings_len(0), 1);
    let Ok(Some((leaf, _seg))) = nodes.root(&mut (), 0) else {
        return Err(TreeErr::Memory);
    };
    let mut xs = [0; 16];
    let Ok(n) = nodes.readings(&mut (), leaf, &mut xs) else {
        return Err(TreeErr::Memory);
    };
    assert_eq!(rt; (n, xs[0]), (1, 7));
    Ok(())
}

#[test]
fn adopts_a_built_tree(rt: HostRuntime) -> Result<(), TreeErr> {
    assert!(rt; are_readings(&READINGS));
    let mut built = Arena::new(rt.alloc(), 0, 64);
    let tree = built.build(&READINGS)?;
    let Ok(segs) = built.segs_of(tree) else {
        return Err(TreeErr::Memory)
    };
    let Ok(xs) = built.readings_of(tree) else {
        return Err(TreeErr::Memory)
    };

    let mut arena = Arena::new(rt.alloc(), 0, 5);
    let adopted = arena.adopt(&segs, &xs)?;
    assert_eq!(rt;
        adopted,
        Tree {
            root: Some(4),
            n: 33
        }
    );
    assert_eq!(rt; arena.adopt(&segs, &xs), Err(TreeErr::ArenaFull));
    let Ok(told) = arena.segs_of(adopted) else {
        return Err(TreeErr::Memory)
    };
    assert_eq!(rt; told.as_slice(), segs.as_slice());
    let Ok(read) = arena.readings_of(adopted) else {
        return Err(TreeErr::Memory)
    };
    assert_eq!(rt; read.as_slice(), READINGS.as_slice());
    Ok(())
}

/// The nodes of a shorter tree stay until a sweep without it gives their places back.
#[test]
fn appends_and_sweeps(rt: HostRuntime) -> Result<(), TreeErr> {
    assert!(rt; are_readings(&READINGS[..32]));
    assert!(rt; are_readings(&[5]));
    assert!(rt; are_readings(&[0]));
    let mut arena = Arena::new(rt.alloc(), 0, 7);
    let first = arena.build(&READINGS[..32])?;
    assert_eq!(rt; arena.used(), 3);

    let kept = arena.append(first, &[5])?;
    assert_eq!(rt; (kept.n, arena.used()), (33, 5));
    arena.sweep(&[kept]);
    assert_eq!(rt; arena.used(), 5);

    let longer = arena.append(kept, &[0])?;
    assert_eq!(rt; (longer.n, arena.used()), (34, 7));
    assert_eq!(rt; arena.append(longer, &[0]), Err(TreeErr::ArenaFull));
    assert_eq!(rt; arena.used(), 7);

    arena.sweep(&[longer]);
    assert_eq!(rt; arena.used(), 5);
    let longest = arena.append(longer, &[0])?;
    assert_eq!(rt; (longest.n, arena.used()), (35, 7));
    arena.sweep(&[longest]);
    assert_eq!(rt; arena.used(), 5);

    arena.sweep(&[]);
    assert_eq!(rt; arena.used(), 0);
    Ok(())
}

#[test]
fn hands_out_the_nodes_that_stay(rt: HostRuntime) -> Result<(), TreeErr> {
    assert!(rt; are_readings(&READINGS));
    let mut arena = Arena::new(rt.alloc(), 0, 64);
    let trees = [arena.build(&READINGS)?];
    let mut nodes = LastingNodes::new(&arena, &trees);
    let mut source = ArenaNodes::new(&arena, &trees);
    assert_eq!(rt; (nodes.count(), nodes.readings_len(0)), (1, 33));
    let Ok(Some((root, seg))) = nodes.root(&mut source, 0) else {
        return Err(TreeErr::Memory)
    };
    assert_eq!(rt; (root, seg.start, seg.len, seg.d), (4, 0, 33, 10));
    let Ok(children) = nodes.children(&mut source, root) else {
        return Err(TreeErr::Memory)
    };
    assert_eq!(rt; (children.right_seg.start, children.right_seg.len), (32, 1));

    let mut small = Arena::new(rt.alloc(), 0, 1);
    let trees = [small.build(&[7])?];
    let mut nodes = LastingNodes::new(&small, &trees);
    let mut source = ArenaNodes::new(&small, &trees);
    let Ok(Some((leaf, _seg))) = nodes.root(&mut source, 0) else {
        return Err(TreeErr::Memory);
    };
    let mut xs = [0; 16];
    let Ok(n) = nodes.readings(&mut source, leaf, &mut xs) else {
        return Err(TreeErr::Memory);
    };
    assert_eq!(rt; (n, xs[0]), (1, 7));
    Ok(())
}
