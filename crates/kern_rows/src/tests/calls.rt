// Calls on images of 64 pages, asked at tick 7. There is `/` (coffer 1), whose pages are 38 and 39, `/a` (2;
// 40 and 41), `/a/b` (3; 42 and 43) and `/ab` (4; 44 and 45). The other pages, from 46 on, are free: 18 of
// them. All are uid 0's and gid 0's, with the modes 666, 666, 644 and 600.
//
// Page `p` begins at address 4096 * p, its owner word stands at 16384 + 8 * p, and the entry of coffer `id`
// at 20480 + 512 * (id - 1).
mod changing;
mod coming;
mod first;
mod full;
mod going;
mod looking;
mod paths;

/// Two leases in the control page of the root coffer: one of tick 6, which has expired, and one of tick 7.
const LEASES: [(u64, u64); 2] = [(155656, 25769803777), (155664, 30064771073)];

const NOW: u32 = 7;
