//! The law of what sites send.

ghost use Rattle.site_wire.specs.Laws.{SitesSendWhatFits};

/// Each message that a site of a program sends can be spelled: by the turns of this site alone, and for bundles of at most 256
/// equations. It does nothing: its clause is the law.
pub fn sites_send_what_fits()
    ensures { SitesSendWhatFits }
{}
