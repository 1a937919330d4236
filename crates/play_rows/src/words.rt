//! The random words of a seed.
use leaf_queue::Words;

#[test]
fn first_words_of_seed_42(rt: HostRuntime) {
    let mut words = Words::new(42);
    let (first, second, third) = (words.next(), words.next(), words.next());
    let drawn = words.drawn();
    assert!(rt;
        first == 0xa15c_02b7 && second == 0x7b47_f409 && third == 0xba1d_3330 && drawn == 3
    );
}
