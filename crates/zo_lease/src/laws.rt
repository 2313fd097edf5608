// Laws of the machines. Each function is empty, and its clauses are laws of the definitions alone.
ghost use Rattle.zo_lease.specs.Laws.{TakeBegins, TakeLaw, TakeHeld, TakeActs, TakeDamage, GiveBegins, GiveLaw, GiveActs, GiveDamage, WatchBegins, WatchLaw, WatchActs, WatchDamage, PopBegins, PopLaw, PopHeld, PopActs, PopDamage, PushBegins, PushLaw, PushHeld, PushActs, PushDamage, CheckLaw, CheckDamage, BesideLaw};

/// Taking a lease: it is won only by an exchange that put the own word in place of 0 or of an expired word; it is busy after 16
/// failed tries and not before; and damage is told just where an action on a word was refused.
pub fn take_law()
    ensures begins { TakeBegins }
    ensures history { TakeLaw }
    ensures held { TakeHeld }
    ensures acts { TakeActs }
    ensures damage { TakeDamage }
{}

/// Giving a lease back: it is given back only by an exchange that found the own word, and lost only where a look behind a failed
/// exchange shows another word or an expired one.
pub fn give_law()
    ensures begins { GiveBegins }
    ensures history { GiveLaw }
    ensures acts { GiveActs }
    ensures damage { GiveDamage }
{}

/// Looking at a lease: it is the call's own, or is told to be so no longer, just by the word that its one load showed.
pub fn check_law()
    ensures history { CheckLaw }
    ensures damage { CheckDamage }
{}

/// Watching a lease: the counter that is told was loaded before the lease, which could be taken then; and it is busy after 16 looks at a
/// lease that held, and not before.
pub fn watch_law()
    ensures begins { WatchBegins }
    ensures history { WatchLaw }
    ensures acts { WatchActs }
    ensures damage { WatchDamage }
{}

/// Popping: a page that is told is the one with which the pool's chain began, under a lease that the thread had taken, and 0 is told just
/// where the head led to none. The head is stored only directly behind a look that showed the own word, unexpired.
pub fn pop_law()
    ensures begins { PopBegins }
    ensures history { PopLaw }
    ensures held { PopHeld }
    ensures acts { PopActs }
    ensures damage { PopDamage }
{}

/// Pushing: the page leads to the one with which the pool's chain began, and the head to the page. Each store comes directly behind a
/// look that showed the own word, unexpired.
pub fn push_law()
    ensures begins { PushBegins }
    ensures history { PushLaw }
    ensures held { PushHeld }
    ensures acts { PushActs }
    ensures damage { PushDamage }
{}

/// The noted address, the counter and a pool's head are looked for where the layout has them.
pub fn beside_law()
    ensures { BesideLaw }
{}
