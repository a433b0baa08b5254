// The laws of a zone's life, each the contract of a function, so that a check without its proof fails.
ghost use Rattle.std.specs.Prelude.{◌-◌};
ghost use Rattle.book.specs.Limits.{most_amount, most_after_share_out};
ghost use Rattle.book.specs.Laws.{EveryLifeAccounted, EveryCutFair};
ghost use Rattle.book.specs.Grounds.{ShareOutFollows, LinesCounted, EveryLifeFits, EveryShareOutFits, BilledIsEntered};
ghost use Rattle.refusal.specs.declared.Refusal.TheVariants.{StripTooShort};

/// In every life, over every lawful sheet, at the start and after each call, members, objects and totals are the
/// tally's; contributed less all balances less unshared is, either way, under one micro-euro for each credit line,
/// or zero if there are none. A limit lower by one does not hold.
pub const fn accounts_stand()
    ensures life { EveryLifeAccounted (λ lines. lines) }
    ensures least { EveryLifeAccounted (λ lines. lines - 1) → ⊥ }
{}

/// However an accepted raise that bills is cut into n raises of its day, for every object the n unit prices together
/// and the single one differ by at most n micro-euros, and so do the unit contributions. A limit lower by one does not
/// hold.
pub const fn cuts_stand()
    ensures cut { EveryCutFair (λ parts. parts) }
    ensures least { EveryCutFair (λ parts. parts - 1) → ⊥ }
{}

/// After an accepted commitment or raise a share-out on the same tables is refused for nothing but a short strip; and
/// no call writes more lines than its operators and objects allow.
pub const fn share_outs_follow()
    ensures refusal { ShareOutFollows StripTooShort }
    ensures lines { LinesCounted }
{}

/// No number that a life reaches, on its tables, in its totals or on a line, exceeds the largest amount; and from any
/// accepted tables a share-out leads to no total or balance beyond 64 bits.
pub const fn numbers_fit()
    ensures life { EveryLifeFits most_amount }
    ensures tables { EveryShareOutFits most_after_share_out }
{}

/// The tranches that a share-out enters are those that its event was billed for, in the event's year index.
pub const fn billed_tranches_enter()
    ensures tables { BilledIsEntered (λ k. k) }
{}
