//! The account book: two sessions on an account, the largest numbers, events, and what is refused.
use acct_book::{MAX_GIVEN, Op, OpenError, Outcome, Page, Quote, Slot, Totals, request_verdict};
use base_list::AddFault;
use std::alloc::Global;

const ACCOUNT: u64 = 100;

const FIRST: u64 = 1;

const SECOND: u64 = 2;

const LARGEST: u64 = u64::MAX;

/// An operation on the account, of the first or the second session.
#[derive(Clone, Copy)]
enum Deed {
    Reserve(u64, u64),
    Debit(u64, u64),
    /// In a group of the first session.
    ReserveIn(u64, u64),
    DebitIn(u64, u64),
    Release(u64),
    /// Without a session: the account and the units.
    Charge(u64, u64),
    Refund(u64),
}

/// What it comes to: units, units with unpaid ones, or nothing.
#[derive(Clone, Copy)]
enum End {
    Done(u64),
    InPart(u64, u64),
    Refused,
}

/// What a quote is asked: the session, the used units and the wanted ones.
type Asked = (u64, u64, u64);

/// What it answers: the number of the verdict, the offer, whether that is final, and the pay.
type Answer = (u32, u64, bool, u64);

/// The sums of the account: given, reserved, debited and unpaid.
type Sums = (u64, u64, u64, u128);

/// A slot of a request: its group, the used units and the wanted ones; none where it has no service.
type Service = Option<(u64, u64, u64)>;

/// A call of a page, and what it answers.
enum Call {
    Apply(Deed, End),
    ApplyAll(&'static [Deed]),
    /// A quote on the account.
    Quote(Asked, Answer),
    /// A quote on another one.
    QuoteOn(u64, Asked, Answer),
    /// Quotes on the slots of a request of the first session, and the verdict on the whole.
    QuoteSlots(u64, [Service; 4], [Option<Answer>; 4], u32),
    Sums(Sums),
    /// There is no such account.
    Unknown(u64),
    /// The journal has so many operations.
    Journal(usize),
    /// The journal has as many operations with these outcomes.
    Outcomes(&'static [End]),
    /// The journal's last operation, and its outcome.
    Last(Deed, End),
    /// An account is opened with so many units, or refused.
    Open(u64, u64, Result<(), OpenError>),
    /// The accounts from 102 to 1,123 are opened with a unit each.
    Fill,
    /// The last operation is taken back, which leaves these sums.
    TakeBack(Sums),
}

/// What is tested, the units of the account, and the calls that show it on a new page.
const CASES: &[(&str, u64, &[Call])] = &[
    (
        "two sessions share an account",
        100,
        &[
            Call::Quote((FIRST, 0, 60), (2001, 60, false, 0)),
            Call::Apply(Deed::Reserve(FIRST, 60), End::Done(60)),
            Call::Quote((SECOND, 0, 60), (2001, 40, true, 0)),
            Call::Apply(Deed::Reserve(SECOND, 40), End::Done(40)),
            Call::Quote((FIRST, 70, 10), (4012, 0, false, 60)),
            Call::Apply(Deed::Debit(FIRST, 70), End::InPart(60, 10)),
            Call::Sums((100, 40, 60, 10)),
            Call::Journal(3),
            Call::Last(Deed::Debit(FIRST, 70), End::InPart(60, 10)),
        ],
    ),
    (
        "the largest numbers do not wrap",
        MAX_GIVEN,
        &[
            Call::Apply(Deed::Reserve(FIRST, 1), End::Done(1)),
            Call::Quote(
                (FIRST, LARGEST, 0),
                (2001, 0, false, 4_611_686_018_427_387_904),
            ),
            Call::Apply(
                Deed::Debit(FIRST, LARGEST),
                End::InPart(4_611_686_018_427_387_904, 13_835_058_055_282_163_711),
            ),
            Call::Apply(Deed::Debit(SECOND, LARGEST), End::InPart(0, LARGEST)),
            Call::Apply(Deed::Debit(SECOND, LARGEST), End::InPart(0, LARGEST)),
            // 13,835,058,055,282,163,711 and twice 2^64 - 1.
            Call::Sums((
                4_611_686_018_427_387_904,
                0,
                4_611_686_018_427_387_904,
                50_728_546_202_701_266_941,
            )),
        ],
    ),
    (
        "unpaid units pass 64 bits",
        0,
        &[
            Call::ApplyAll(&[Deed::Debit(FIRST, LARGEST), Deed::Debit(FIRST, LARGEST)]),
            Call::Sums((0, 0, 0, 36_893_488_147_419_103_230)),
        ],
    ),
    (
        "events without a session",
        100,
        &[
            Call::Apply(Deed::Charge(ACCOUNT, 30), End::Done(30)),
            Call::Quote((FIRST, 0, 80), (2001, 70, true, 0)),
            Call::Apply(Deed::Refund(50), End::Done(30)),
            Call::Sums((100, 0, 0, 0)),
        ],
    ),
    (
        "a senseless list is refused and booked",
        100,
        &[
            Call::ApplyAll(&[
                Deed::Reserve(FIRST, 60),
                Deed::Reserve(FIRST, 60),
                Deed::Charge(ACCOUNT, 60),
            ]),
            Call::ApplyAll(&[
                Deed::Reserve(FIRST, 60),
                Deed::Reserve(FIRST, 60),
                Deed::Charge(ACCOUNT, 60),
            ]),
            Call::Outcomes(&[
                End::Done(60),
                End::Refused,
                End::Refused,
                End::Refused,
                End::Refused,
                End::Refused,
            ]),
            Call::Sums((100, 60, 0, 0)),
        ],
    ),
    (
        "a release ends its own reservation alone",
        100,
        &[
            Call::Apply(Deed::Reserve(FIRST, 60), End::Done(60)),
            Call::Apply(Deed::Reserve(SECOND, 10), End::Done(10)),
            Call::Apply(Deed::Release(FIRST), End::Done(60)),
            Call::Apply(Deed::Release(FIRST), End::Done(0)),
            Call::Sums((100, 10, 0, 0)),
        ],
    ),
    (
        "an unknown account is told and refused",
        100,
        &[
            Call::QuoteOn(0, (FIRST, 5, 5), (5030, 0, false, 0)),
            Call::Unknown(0),
            Call::Apply(Deed::Charge(0, 1), End::Refused),
            Call::Journal(1),
        ],
    ),
    (
        "an account is opened once",
        100,
        &[
            Call::Open(ACCOUNT, MAX_GIVEN + 1, Err(OpenError::Add(AddFault::Taken))),
            Call::Open(ACCOUNT + 1, MAX_GIVEN + 1, Err(OpenError::TooLarge)),
            Call::Open(ACCOUNT + 1, MAX_GIVEN, Ok(())),
            Call::Fill,
            Call::Open(ACCOUNT, 1, Err(OpenError::Add(AddFault::Taken))),
            Call::Open(1124, MAX_GIVEN + 1, Err(OpenError::TooLarge)),
            Call::Open(1124, 1, Err(OpenError::Add(AddFault::Full))),
        ],
    ),
    (
        "a release ends all groups of its session",
        100,
        &[
            Call::Apply(Deed::ReserveIn(1, 10), End::Done(10)),
            Call::Apply(Deed::ReserveIn(2, 20), End::Done(20)),
            Call::Apply(Deed::ReserveIn(4_294_967_297, 30), End::Done(30)),
            Call::Apply(Deed::Reserve(SECOND, 5), End::Done(5)),
            Call::Apply(Deed::Release(FIRST), End::Done(60)),
            Call::Apply(Deed::Release(FIRST), End::Done(0)),
            Call::Apply(Deed::ReserveIn(2, 7), End::Done(7)),
            Call::Apply(Deed::Release(FIRST), End::Done(7)),
            Call::Sums((100, 5, 0, 0)),
        ],
    ),
    (
        "two groups of a session",
        100,
        &[
            Call::Apply(Deed::ReserveIn(3, 70), End::Done(70)),
            Call::Apply(Deed::ReserveIn(4, 30), End::Done(30)),
            Call::Sums((100, 100, 0, 0)),
            Call::Apply(Deed::DebitIn(3, 80), End::InPart(70, 10)),
            Call::Apply(Deed::DebitIn(4, 10), End::Done(10)),
            Call::Apply(Deed::ReserveIn(4, 10), End::Done(10)),
            Call::Sums((100, 10, 80, 10)),
            Call::Apply(Deed::Release(FIRST), End::Done(10)),
            Call::Sums((100, 0, 80, 10)),
        ],
    ),
    (
        "slots are quoted after the earlier ones",
        100,
        &[
            Call::QuoteSlots(
                ACCOUNT,
                [Some((1, 0, 70)), Some((2, 0, 50)), None, None],
                [
                    Some((2001, 70, false, 0)),
                    Some((2001, 30, true, 0)),
                    None,
                    None,
                ],
                2001,
            ),
            Call::Journal(0),
            Call::Apply(Deed::DebitIn(1, 0), End::Done(0)),
            Call::Apply(Deed::ReserveIn(1, 70), End::Done(70)),
            Call::Apply(Deed::DebitIn(2, 0), End::Done(0)),
            Call::Apply(Deed::ReserveIn(2, 30), End::Done(30)),
            Call::Sums((100, 100, 0, 0)),
            Call::QuoteSlots(
                ACCOUNT,
                [Some((1, 80, 10)), Some((2, 10, 10)), None, None],
                [
                    Some((4012, 0, false, 70)),
                    Some((2001, 10, false, 10)),
                    None,
                    None,
                ],
                2001,
            ),
            Call::Apply(Deed::DebitIn(1, 80), End::InPart(70, 10)),
            Call::Apply(Deed::ReserveIn(1, 0), End::Done(0)),
            Call::Apply(Deed::DebitIn(2, 10), End::Done(10)),
            Call::Apply(Deed::ReserveIn(2, 10), End::Done(10)),
            Call::Sums((100, 10, 80, 10)),
        ],
    ),
    (
        "a slot without a service gets no quote",
        10,
        &[
            Call::QuoteSlots(
                ACCOUNT,
                [Some((1, 0, 4)), None, Some((4_294_967_297, 0, 7)), None],
                [
                    Some((2001, 4, false, 0)),
                    None,
                    Some((2001, 6, true, 0)),
                    None,
                ],
                2001,
            ),
            Call::QuoteSlots(
                ACCOUNT,
                [None, None, None, None],
                [None, None, None, None],
                4012,
            ),
        ],
    ),
    (
        "four slots share the largest account",
        MAX_GIVEN,
        &[
            Call::QuoteSlots(
                ACCOUNT,
                [
                    Some((1, 2_305_843_009_213_693_952, 1)),
                    Some((2, 2_305_843_009_213_693_952 - 1, 1)),
                    Some((LARGEST, LARGEST, LARGEST)),
                    Some((4_294_967_297, 0, 0)),
                ],
                [
                    Some((2001, 1, false, 2_305_843_009_213_693_952)),
                    Some((4012, 0, false, 2_305_843_009_213_693_952 - 1)),
                    Some((4012, 0, false, 0)),
                    Some((2001, 0, false, 0)),
                ],
                2001,
            ),
            Call::QuoteSlots(
                ACCOUNT,
                [
                    Some((1, LARGEST, LARGEST)),
                    Some((2, LARGEST, LARGEST)),
                    Some((3, 0, 1)),
                    Some((4, LARGEST, LARGEST)),
                ],
                [
                    Some((4012, 0, false, MAX_GIVEN)),
                    Some((4012, 0, false, 0)),
                    Some((4012, 0, false, 0)),
                    Some((4012, 0, false, 0)),
                ],
                4012,
            ),
            Call::QuoteSlots(
                ACCOUNT,
                [
                    Some((LARGEST, 0, LARGEST)),
                    Some((1, 0, LARGEST)),
                    None,
                    Some((2, 0, 0)),
                ],
                [
                    Some((2001, MAX_GIVEN, true, 0)),
                    Some((4012, 0, false, 0)),
                    None,
                    Some((2001, 0, false, 0)),
                ],
                2001,
            ),
        ],
    ),
    (
        "a group in two slots keeps its last offer",
        100,
        &[
            Call::Apply(Deed::ReserveIn(7, 60), End::Done(60)),
            Call::Apply(Deed::Reserve(SECOND, 5), End::Done(5)),
            Call::QuoteSlots(
                ACCOUNT,
                [
                    Some((7, 0, 30)),
                    Some((8, 0, 40)),
                    Some((7, 10, 100)),
                    Some((7, 0, 1)),
                ],
                [
                    Some((2001, 30, false, 0)),
                    Some((2001, 40, false, 0)),
                    Some((2001, 45, true, 10)),
                    Some((2001, 1, false, 0)),
                ],
                2001,
            ),
        ],
    ),
    (
        "slots on an unknown account",
        100,
        &[
            Call::QuoteSlots(
                0,
                [Some((1, 5, 5)), None, Some((2, 0, 0)), None],
                [
                    Some((5030, 0, false, 0)),
                    None,
                    Some((5030, 0, false, 0)),
                    None,
                ],
                5030,
            ),
            Call::QuoteSlots(
                101,
                [Some((1, 5, 5)), None, Some((2, 0, 0)), None],
                [
                    Some((5030, 0, false, 0)),
                    None,
                    Some((5030, 0, false, 0)),
                    None,
                ],
                5030,
            ),
            Call::QuoteSlots(
                LARGEST,
                [Some((1, 5, 5)), None, Some((2, 0, 0)), None],
                [
                    Some((5030, 0, false, 0)),
                    None,
                    Some((5030, 0, false, 0)),
                    None,
                ],
                5030,
            ),
        ],
    ),
    (
        "a release of five groups is taken back",
        100,
        &[
            Call::Apply(Deed::ReserveIn(1, 1), End::Done(1)),
            Call::Apply(Deed::ReserveIn(2, 2), End::Done(2)),
            Call::Apply(Deed::ReserveIn(3, 3), End::Done(3)),
            Call::Apply(Deed::ReserveIn(4, 4), End::Done(4)),
            Call::Apply(Deed::ReserveIn(5, 5), End::Done(5)),
            Call::Apply(Deed::Release(FIRST), End::Done(15)),
            Call::Apply(Deed::ReserveIn(3, 50), End::Done(50)),
            Call::TakeBack((100, 0, 0, 0)),
            Call::TakeBack((100, 15, 0, 0)),
            Call::Apply(Deed::DebitIn(3, 3), End::Done(3)),
            Call::Apply(Deed::Release(FIRST), End::Done(12)),
        ],
    ),
    (
        "each operation is taken back",
        100,
        &[
            Call::Apply(Deed::Reserve(FIRST, 60), End::Done(60)),
            Call::Apply(Deed::Debit(FIRST, 120), End::InPart(100, 20)),
            Call::Apply(Deed::Refund(5), End::Done(5)),
            Call::Apply(Deed::Charge(ACCOUNT, 2), End::Done(2)),
            Call::Apply(Deed::Charge(ACCOUNT, 4), End::Refused),
            Call::Apply(Deed::Charge(7, 1), End::Refused),
            Call::TakeBack((100, 0, 97, 20)),
            Call::TakeBack((100, 0, 97, 20)),
            Call::TakeBack((100, 0, 95, 20)),
            Call::TakeBack((100, 0, 100, 20)),
            Call::TakeBack((100, 60, 0, 0)),
            Call::TakeBack((100, 0, 0, 0)),
            Call::Journal(0),
        ],
    ),
];

fn op_of(deed: Deed) -> Op {
    let account = ACCOUNT;
    match deed {
        Deed::Reserve(session, amount) => Op::Reserve {
            account,
            session,
            group: 0,
            amount,
        },
        Deed::Debit(session, used) => Op::Debit {
            account,
            session,
            group: 0,
            used,
        },
        Deed::ReserveIn(group, amount) => Op::Reserve {
            account,
            session: FIRST,
            group,
            amount,
        },
        Deed::DebitIn(group, used) => Op::Debit {
            account,
            session: FIRST,
            group,
            used,
        },
        Deed::Release(session) => Op::Release { account, session },
        Deed::Charge(other, amount) => Op::Charge {
            account: other,
            amount,
        },
        Deed::Refund(amount) => Op::Refund { account, amount },
    }
}

fn outcome_of(end: End) -> Outcome {
    match end {
        End::Done(amount) => Outcome::Done { amount, unpaid: 0 },
        End::InPart(amount, unpaid) => Outcome::Done { amount, unpaid },
        End::Refused => Outcome::Refused,
    }
}

fn applies(page: &mut Page, deed: Deed, end: End) -> bool {
    page.apply(op_of(deed)) == Ok(outcome_of(end))
}

/// Whether a list of at most three operations is applied.
fn applies_all(page: &mut Page, deeds: &[Deed]) -> bool {
    match deeds {
        [a, b] => page.apply_all(&[op_of(*a), op_of(*b)]) == Ok(()),
        [a, b, c] => page.apply_all(&[op_of(*a), op_of(*b), op_of(*c)]) == Ok(()),
        _ => false,
    }
}

fn is_answer(quote: &Quote, answer: &Answer) -> bool {
    let (verdict, offer, is_final, pay) = *answer;
    quote.verdict.number() == verdict
        && quote.offer == offer
        && quote.is_final == is_final
        && quote.pay == pay
}

fn quotes(page: &Page, account: u64, (session, used, want): Asked, answer: &Answer) -> bool {
    is_answer(&page.quote(account, session, 0, used, want), answer)
}

fn slot_of(service: Service) -> Option<Slot> {
    let (group, used, want) = service?;
    Some(Slot { group, used, want })
}

/// Whether a slot's quote is this.
fn is_quoted(quote: &Option<Quote>, answer: &Option<Answer>) -> bool {
    match (quote, answer) {
        (Some(quote), Some(answer)) => is_answer(quote, answer),
        (None, None) => true,
        _ => false,
    }
}

/// Whether a page answers these to the slots of a session's request, and this verdict to the whole.
fn quotes_slots(
    page: &Page,
    account: u64,
    services: &[Service; 4],
    answers: &[Option<Answer>; 4],
    verdict: u32,
) -> bool {
    let [a, b, c, d] = *services;
    let slots = [slot_of(a), slot_of(b), slot_of(c), slot_of(d)];
    let quotes = page.quote_groups(account, FIRST, &slots);
    for (quote, answer) in quotes.iter().zip(answers) {
        if !is_quoted(quote, answer) {
            return false;
        }
    }
    request_verdict(&quotes).number() == verdict
}

fn sums_to(page: &Page, (given, reserved, debited, unpaid): Sums) -> bool {
    page.totals(ACCOUNT)
        == Some(Totals {
            given,
            reserved,
            debited,
            unpaid,
        })
}

fn has_outcomes(page: &Page, ends: &[End]) -> bool {
    let mut all = page.journal().len() == ends.len();
    for (booked, end) in page.journal().iter().zip(ends) {
        all = all && booked.outcome == outcome_of(*end);
    }
    all
}

fn is_last(page: &Page, deed: Deed, end: End) -> bool {
    match page.journal().last() {
        Some(booked) => booked.op == op_of(deed) && booked.outcome == outcome_of(end),
        None => false,
    }
}

/// Whether opening an account answers so, where its number is one of the page's.
fn opens(page: &mut Page, id: u64, given: u64, answer: &Result<(), OpenError>) -> bool {
    let (number, pages) = page.number();
    id >= 1 && pages >= 1 && id % pages == number && page.open_account(id, given) == *answer
}

fn fills(page: &mut Page) -> bool {
    let mut all = true;
    for id in 102..1124 {
        all = all && opens(page, id, 1, &Ok(()));
    }
    all
}

fn takes_back(page: &mut Page, sums: Sums) -> bool {
    if page.journal().is_empty() {
        return false;
    }
    page.take_back();
    sums_to(page, sums)
}

/// Whether a call answers so.
fn answers(page: &mut Page, call: &Call) -> bool {
    match call {
        Call::Apply(deed, end) => applies(page, *deed, *end),
        Call::ApplyAll(deeds) => applies_all(page, deeds),
        Call::Quote(asked, answer) => quotes(page, ACCOUNT, *asked, answer),
        Call::QuoteOn(account, asked, answer) => quotes(page, *account, *asked, answer),
        Call::QuoteSlots(account, services, answers, verdict) => {
            quotes_slots(page, *account, services, answers, *verdict)
        }
        Call::Sums(sums) => sums_to(page, *sums),
        Call::Unknown(account) => page.totals(*account).is_none(),
        Call::Journal(count) => page.journal().len() == *count,
        Call::Outcomes(ends) => has_outcomes(page, ends),
        Call::Last(deed, end) => is_last(page, *deed, *end),
        Call::Open(id, given, answer) => opens(page, *id, *given, answer),
        Call::Fill => fills(page),
        Call::TakeBack(sums) => takes_back(page, *sums),
    }
}

/// How many calls answer so on a new page, before the first that does not.
fn answered(alloc: Global, given: u64, calls: &[Call]) -> usize {
    let mut page = Page::new(alloc);
    if !opens(&mut page, ACCOUNT, given, &Ok(())) {
        return 0;
    }
    for (place, call) in calls.iter().enumerate() {
        if !answers(&mut page, call) {
            return place;
        }
    }
    calls.len()
}

#[test]
fn a_page_answers_and_keeps_its_sums(rt: HostRuntime) {
    for (name, given, calls) in CASES {
        let place = answered(rt.alloc(), *given, calls);
        assert!(rt; place == calls.len(), "{name}: call {place}");
    }
}

/// Whether the third of eight pages has room and takes the largest account that is its own.
fn has_number_and_room(page: &mut Page) -> bool {
    let charge = Op::Charge {
        account: 18_446_744_073_709_551_611,
        amount: 9,
    };
    page.number() == (3, 8)
        && page.reserve_room(4) == Ok(())
        && opens(page, 18_446_744_073_709_551_611, 9, &Ok(()))
        && page.apply(charge) == Ok(outcome_of(End::Done(9)))
}

#[test]
fn a_page_has_its_number_and_room(rt: HostRuntime) {
    let mut page = Page::numbered(rt.alloc(), 3, 8);
    assert!(rt; has_number_and_room(&mut page));
    assert!(rt; Page::new(rt.alloc()).number() == (0, 1));
}

#[test]
fn a_full_page_is_told_in_words(rt: HostRuntime) {
    assert!(rt; format!(in rt.alloc(); "{}", OpenError::Add(AddFault::Full)).is_ok());
}
