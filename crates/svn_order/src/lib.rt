//! The check of the order of a delta editor's calls (`svn_delta.h`).
//!
//! [`OrderCheck`] is given one call after the other and says which rule the next one breaks. The rules are defined over the list of the
//! calls before (`order_fault` of `svn_editor/specs/Order.antt`); the check keeps a few bytes a token instead of the list.
//!
//! ```
//! let mut check = OrderCheck::new(alloc);
//! assert_eq!(rt; check.step(&Call::OpenRoot { base: Rev(0), token: Token(0) }), Err(OrderFault::TargetFirst));
//! // an edit with a call out of order can only be given up
//! assert_eq!(rt; check.step(&Call::SetTargetRevision { rev: Rev(1) }), Err(OrderFault::Dead));
//! assert_eq!(rt; check.step(&Call::AbortEdit), Ok(()));
//! assert_eq!(rt; check.step(&Call::AbortEdit), Err(OrderFault::Ended));
//! ```
//!
//! Files: `order` has the check; `tokens` what each token was given to, and whether it is closed and has its text; `directories` the open
//! directories, innermost last, with the names of the entries that calls were about (`name_set`: a list while they come in order); `order_rules`
//! tests one rule after the other on these parts, in the order of the definition.
//!
//! In `specs/`, `StandsAfter` says what each part holds of the calls so far, `OrderState` the rules as tests on the parts, and `OrderChanges` what a
//! call changes. So the proof has two halves: the tests on the parts are those of the definition (`proofs/Looking`, `Answering`), and one more call
//! keeps what the parts hold (`Holding*`, `svn_editor/proofs/OneMore`). To add a rule: a test in `Order.antt`, its form in `OrderState.antt` and
//! `order_rules.rt`, and a lemma between them.
//!
//! Promises, all of `step`, for every list of calls that the check has seen (`StandsAfter`): the first rule that the call breaks is returned, or
//! Memory (`answers`); an accepted call is one call more (`accepted`); what comes after a refusal and after the end (`refused`, `dead`, `ended`);
//! `CloseEdit` and `AbortEdit` are never refused for memory (`last`).
#![tactic(auto)]

mod directories;
mod name_set;
mod order;
mod order_rules;
mod tokens;

pub use order::OrderCheck;
