// Worked rows, computed by the checker from the definitions.
ghost use Rattle.std.specs.Prelude.{◌≡◌, ◌∷◌, []};
ghost use Rattle.pcap_files.specs.Ahead.{last};
ghost use Rattle.pcap_files.specs.Reading.{Holds, RecordTold, told_by, told_of};
ghost use Rattle.pcap_files.specs.declared.reader.Reader.{Reader};
ghost use Rattle.pcap_files.specs.declared.record.Found.{Found};
ghost use Rattle.pcap_files.specs.declared.record.Record.{Record};

/// Worked examples of what is told of a record: the bytes captured of it are the last of those that a reader passed. It does nothing.
pub fn worked_records()
    ensures none_of_three { last 0 (5 ∷ 6 ∷ 7 ∷ []) ≡ [] }
    ensures one_of_three { last 1 (5 ∷ 6 ∷ 7 ∷ []) ≡ 7 ∷ [] }
    ensures two_of_three { last 2 (5 ∷ 6 ∷ 7 ∷ []) ≡ 6 ∷ 7 ∷ [] }
    ensures all_three { last 3 (5 ∷ 6 ∷ 7 ∷ []) ≡ 5 ∷ 6 ∷ 7 ∷ [] }
    ensures found { (reader : Reader) (found : Found) → reader.ahead.passed ≡ 5 ∷ 6 ∷ 7 ∷ [] → found.number ≡ 1 → found.stamp ≡ 8 → found.len ≡ 60
        → found.captured ≡ 2
        → told_by reader found ≡ record { number = 1; stamp = 8; len = 60; bytes = 6 ∷ 7 ∷ [] } }
    ensures lent { (r : Record) → r.number ≡ 1 → r.stamp ≡ 8 → r.len ≡ 60 → r.bytes.now ≡ 6 ∷ 7 ∷ []
        → told_of r ≡ record { number = 1; stamp = 8; len = 60; bytes = 6 ∷ 7 ∷ [] } }
    ensures held { (reader : Reader) (found : Found) → reader.ahead.passed ≡ 5 ∷ 6 ∷ [] → found.captured ≡ 2 → Holds reader found }
    ensures not_held { (reader : Reader) (found : Found) → reader.ahead.passed ≡ 5 ∷ 6 ∷ [] → found.captured ≡ 3 → Holds reader found → ⊥ }
{}
