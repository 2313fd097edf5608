// An image of 64 pages with three coffers beside the root coffer.
//
// The journal begins in page 1, the owner table is page 4, the coffer table begins in page 5, and the path
// buckets are in page 37.

/// Coffers `/a` (2, pages 40 and 41), `/a/b` (3, pages 42 and 43) and `/ab` (4, pages 44 and 45), in the
/// buckets 45, 204 and 61.
pub const THREE: [(u64, u64); 27] = [
    (16704, 2),
    (16712, 2),
    (16720, 3),
    (16728, 3),
    (16736, 4),
    (16744, 4),
    (20992, 1),
    (21016, 0o666),
    (21024, 40),
    (21032, 41),
    (21048, 2),
    (21064, 0x612f),
    (21504, 1),
    (21528, 0o644),
    (21536, 42),
    (21544, 43),
    (21560, 4),
    (21576, 0x622f_612f),
    (22016, 1),
    (22040, 0o600),
    (22048, 44),
    (22056, 45),
    (22072, 3),
    (22088, 0x0062_612f),
    (151912, 2),
    (153184, 3),
    (152040, 4),
];
