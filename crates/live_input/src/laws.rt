//! What files of LSAs and live files come to, said over their bytes: laws of the definitions that reading goes by.
ghost use Rattle.live_input.specs.Laws.{LiveFilesComeTo, LsaFilesComeTo};

/// What a file of LSAs is read as is what its bytes come to, and nothing else.
pub fn lsa_files_come_to()
    ensures { LsaFilesComeTo }
{}

/// What a live file is read as is what its bytes come to for an area, and nothing else.
pub fn live_files_come_to()
    ensures { LiveFilesComeTo }
{}
