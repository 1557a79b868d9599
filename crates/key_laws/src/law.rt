ghost use Rattle.key_laws.specs.Laws.{KeysHaveTheirLiveEvents, KeysHaveTheirNotices, NoticesAreOfOneKey};

/// Where the keys of a configuration are apart, each notice is of one key, and the notices of a key are those that the
/// seconds and the posted events of the key alone give: with their moments, in their order, and with what comes again
/// once it has expired. So is what the index holds of a key.
pub fn notices_are_apart()
    ensures notices { KeysHaveTheirNotices }
    ensures one { NoticesAreOfOneKey }
    ensures index { KeysHaveTheirLiveEvents }
{}
