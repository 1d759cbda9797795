// Tests of the scales and of the strips, on examples.

#![tactic(auto)]

#[cfg(test)]
mod tests {
    use scale::Scale;
    use scale::accents::Accents;
    use scale::gates::Gates;
    use scale::lanes::Lanes;
    use strip::Strip;
    use strip::accents::AccentStrip;
    use strip::gates::GateStrip;
    use strip::lanes::LaneStrip;

    const PLACES: [usize; 6] = [0, 63, 64, 127, 128, 255];

    #[test]
    fn products_and_sums(rt: HostRuntime) {
        for (a, b, c) in [(2, 8, 3), (2, 9, 1), (15, 15, 10), (0, 7, 0), (1, 7, 7)] {
            assert_eq!(rt; Lanes::product(a, b), c);
        }
        for (a, b, c) in [(126, 126, 1), (2, 64, 1), (0, 7, 0), (1, 7, 7)] {
            assert_eq!(rt; Accents::product(a, b), c);
        }
        for (a, b, c) in [(126, 1, 0), (126, 126, 125), (0, 7, 7)] {
            assert_eq!(rt; Accents::sum(a, b), c);
        }
        assert_eq!(rt; Lanes::sum(12, 10), 6);
        assert_eq!(rt; Gates::sum(1, 1), 0);
        assert_eq!(rt; Gates::product(1, 1), 1);
    }

    // what holds at a byte: at a code by the laws, and what is no code is answered with 0
    fn lawful<C: Scale>(a: u8) -> bool {
        let code = a < C::codes();
        let some = code && a > 0;
        let itself = if code { a } else { 0 };
        C::sum(a, C::negative(a)) == 0
            && C::product(a, C::inverse(a)) == some as u8
            && C::product(a, 1) == itself
            && C::sum(0, a) == itself
            && (C::velocity(a) > 0) == some
    }

    #[test]
    fn codes_of_each_scale(rt: HostRuntime) {
        assert_eq!(rt;
            [Gates::codes(), Accents::codes(), Lanes::codes()],
            [2, 127, 16]
        );
        assert_eq!(rt;
            [
                Gates::velocity(1),
                Accents::velocity(126),
                Lanes::velocity(15),
            ],
            [100, 126, 120]
        );
        for a in 0..=255 {
            assert!(rt; lawful::<Gates>(a) && lawful::<Accents>(a) && lawful::<Lanes>(a));
        }
    }

    // c put at a place of a blank strip, added to another, and taken away again
    fn keeps<S: Strip>(place: usize, c: u8) -> bool {
        let blank = S::blank();
        let inside = place < 128;
        let mut s = blank;
        s.put(place, c);
        let mut t = blank;
        t.add(1, &s);
        let same = t.equal(&s);
        t.add(S::Codes::negative(1), &s);
        t.add(0, &s);
        t.add(255, &s);
        t.put(place, 255);
        s.ask(place) == if inside { c } else { 0 }
            && s.ask(place ^ 1) == 0
            && s.ask(place ^ 64) == 0
            && s.first() == if inside { place } else { 128 }
            && s.equal(&blank) != inside
            && same
            && t.equal(&blank)
    }

    #[test]
    fn each_place(rt: HostRuntime) {
        for place in PLACES {
            assert!(rt;
                keeps::<GateStrip>(place, 1)
                    && keeps::<AccentStrip>(place, 126)
                    && keeps::<LaneStrip>(place, 15)
            );
        }
    }

    // a strip whose stored patterns are no codes means a blank one
    fn means_blank<S: Strip>(stored: S, place: usize) -> bool {
        let blank = S::blank();
        let mut s = blank;
        s.put(place, 1);
        let mut under = s;
        under.add(1, &stored);
        let mut over = stored;
        over.add(1, &s);
        let mut changed = stored;
        changed.put(place, 1);
        stored.ask(place) == 0
            && stored.first() == 128
            && stored.equal(&blank)
            && blank.equal(&stored)
            && under.equal(&s)
            && over.equal(&s)
            && changed.equal(&s)
            && changed.first() == s.first()
    }

    #[test]
    fn stored_patterns(rt: HostRuntime) {
        for place in PLACES {
            for b in 16..=255 {
                assert!(rt; b < 127 || means_blank(AccentStrip::from_bytes([b; 128]), place));
                assert!(rt; means_blank(LaneStrip::from_bytes([b; 128]), place));
            }
            assert!(rt; means_blank(GateStrip::from_words([0; 2]), place));
        }
    }

    #[test]
    fn stored_codes(rt: HostRuntime) {
        let gates = GateStrip::from_words([1 << 63, 1]);
        assert_eq!(rt;
            [gates.ask(62), gates.ask(63), gates.ask(64), gates.ask(65)],
            [0, 1, 1, 0]
        );
        assert_eq!(rt; gates.first(), 63);
        let mut lanes = LaneStrip::from_bytes([8; 128]);
        lanes.add(2, &LaneStrip::from_bytes([8; 128]));
        assert_eq!(rt; [lanes.ask(0), lanes.ask(127), lanes.ask(128)], [11, 11, 0]);
        let mut accents = AccentStrip::from_bytes([126; 128]);
        accents.add(126, &AccentStrip::from_bytes([126; 128]));
        assert_eq!(rt; accents.first(), 128);
    }
}
